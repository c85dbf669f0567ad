// What came of the solves: how each ended, and which comparisons failed.
use graphs::{Cause, Fault};
use std::fmt;

// Stays at the highest number once it is there, so that whoever counts owes no bound.
#[derive(Clone, Copy, Default)]
pub(crate) struct Counter {
    count: u32,
}

impl Counter {
    pub(crate) fn add(&mut self) {
        self.count = self.count.saturating_add(1);
    }

    // Counts a comparison that failed.
    pub(crate) fn expect(&mut self, held: bool) {
        if !held {
            self.add();
        }
    }
}

impl fmt::Display for Counter {
    fn fmt<W: fmt::Write>(&self, f: &mut fmt::Formatter<W>) -> fmt::Result {
        write!(f, "{}", self.count)
    }
}

#[derive(Clone, Copy, Default)]
pub(crate) struct Disagreements {
    // An answer where a refusal was due, a refusal where an answer was, or another refusal.
    pub(crate) outcome: Counter,
    // A price that is not the lowest total.
    pub(crate) price: Counter,
    // A pick that its variable does not have.
    pub(crate) choice: Counter,
    // Picks with another total than the price.
    pub(crate) total: Counter,
    // A change of a pick that had to stay.
    pub(crate) picks: Counter,
    // A change of a price that had to stand.
    pub(crate) prices: Counter,
}

#[derive(Clone, Copy, Default)]
pub(crate) struct Tally {
    answered: Counter,
    nothing_fits: Counter,
    turned_away: Counter,
    short: Counter,
    pub(crate) disagreements: Disagreements,
}

impl Tally {
    pub(crate) fn count<P>(&mut self, answer: &Result<P, Fault>) {
        let outcome = match answer {
            Ok(_) => &mut self.answered,
            Err(
                Fault {
                    cause: Cause::Short,
                },
            ) => &mut self.short,
            Err(
                Fault {
                    cause: Cause::TurnedAway { .. },
                },
            ) => &mut self.turned_away,
            Err(
                Fault {
                    cause: Cause::NothingFits,
                },
            ) => &mut self.nothing_fits,
        };
        outcome.add();
    }
}

impl fmt::Display for Disagreements {
    fn fmt<W: fmt::Write>(&self, f: &mut fmt::Formatter<W>) -> fmt::Result {
        let Disagreements {
            outcome,
            price,
            choice,
            total,
            picks,
            prices,
        } = *self;
        write!(f, "outcome {outcome}, price {price}, choice {choice}, ")?;
        write!(f, "total {total}, picks {picks}, prices {prices}")
    }
}

impl fmt::Display for Tally {
    fn fmt<W: fmt::Write>(&self, f: &mut fmt::Formatter<W>) -> fmt::Result {
        let Tally {
            answered,
            nothing_fits,
            turned_away,
            short,
            ..
        } = *self;
        write!(f, "{answered} answered, {nothing_fits} nothing fits, ")?;
        write!(f, "{turned_away} turned away, {short} short")
    }
}
