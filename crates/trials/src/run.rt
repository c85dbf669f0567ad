// The graphs of one price kind, and what is printed of them.
use crate::asked::Asked;
use crate::case::Case;
use crate::chance::Chance;
use crate::refusal::turned_away;
use crate::sample::Sample;
use crate::tally::Tally;
use crate::trial::Trial;
use graphs::{BranchAndBound, Elimination};
use std::io;

const GRAPHS: u32 = 2000;

// What came of each solver, and of asking the graph itself.
#[derive(Clone, Copy, Default)]
struct Tallies {
    branch_and_bound: Tally,
    elimination: Tally,
    asked: Asked,
}

// Branch and bound takes every graph; elimination takes those with narrow frontiers.
fn try_graph<P: Sample>(case: &Case<P>, tallies: &mut Tallies) {
    let always = case.answer();
    // A graph that is turned away is not looked at further.
    let if_narrow = case
        .too_wide_after()
        .map_or(always, |variable| Err(turned_away(variable)));
    Trial {
        solver: &mut BranchAndBound,
        tally: &mut tallies.branch_and_bound,
    }
    .run(case, always);
    Trial {
        solver: &mut Elimination,
        tally: &mut tallies.elimination,
    }
    .run(case, if_narrow);
    tallies.asked.ask(case);
}

fn print_tally(rt: &impl Print, solver: &str, tally: &Tally) -> io::Result<()> {
    println!(rt; "  {solver}: {tally}")?;
    println!(rt; "    disagreements: {}", tally.disagreements)
}

// Draws the case anew for each graph.
pub(crate) fn run<P: Sample>(
    rt: &impl Print,
    kind: &str,
    seed: u64,
    case: &mut Case<P>,
) -> io::Result<()> {
    let mut chance = Chance::new(seed);
    let mut tallies = Tallies::default();
    // This loop repeats; it goes over nothing that an iterator could give.
    for _ in 0..GRAPHS {
        case.redraw(&mut chance);
        try_graph(case, &mut tallies);
    }
    println!(rt; "{kind} prices: {GRAPHS} graphs")?;
    print_tally(rt, "branch and bound", &tallies.branch_and_bound)?;
    print_tally(rt, "elimination", &tallies.elimination)?;
    println!(rt; "  asked of the graphs: disagreements: {}", tallies.asked)
}
