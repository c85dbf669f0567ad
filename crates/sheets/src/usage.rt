// How often lines read and write a variable, and what they cost with everything in memory.
ghost use Rattle.std.specs.Prelude.{◌≡◌, ◌≤◌, length, Some, nat_eq, count_by};
ghost use Rattle.std.specs.Option.{option_eq, option_to_list};
ghost use Rattle.sheets.specs.Lines.{reads, writes, weight};
ghost use Rattle.sheets.specs.Usage.{present, named, times, tally_of};
ghost use Rattle.sheets.specs.Contents.{content_of};
ghost use Rattle.sheets.specs.Placement.{line_price, price, everything_in_memory};

use crate::access::{Access, Tally};
use crate::line::Line;
use crate::sheet::Sheet;
use prices::Price;

impl Line {
    // The variables that the line reads.
    fn reads(self) -> [Option<u8>; 2]
        ensures { present result ≡ reads self }
    {
        match self {
            Line::Add { a, b, .. } | Line::Multiply { a, b, .. } => [Some(a), Some(b)],
            Line::Output { s, .. } | Line::Copy { s, .. } => [Some(s), None],
            Line::UpperHalf { s, .. } | Line::GoToIfZero { s, .. } => [Some(s), None],
            Line::Input { .. } | Line::GoTo { .. } | Line::End => [None; 2],
        }
    }

    // The variable that the line writes.
    fn writes(self) -> Option<u8>
        ensures { option_to_list result ≡ writes self }
    {
        match self {
            Line::Input { d, .. } | Line::Copy { d, .. } | Line::UpperHalf { d, .. } => Some(d),
            Line::Add { d, .. } | Line::Multiply { d, .. } => Some(d),
            Line::Output { .. } | Line::GoTo { .. } | Line::GoToIfZero { .. } | Line::End => None,
        }
    }

    fn weight(self) -> u8
        ensures { result ≡ weight self }
    {
        match self {
            Line::Input { w, .. } | Line::Output { w, .. } => w,
            Line::Copy { w, .. } | Line::UpperHalf { w, .. } => w,
            Line::Add { w, .. } | Line::Multiply { w, .. } => w,
            Line::GoToIfZero { w, .. } => w,
            Line::GoTo { .. } | Line::End => 0,
        }
    }

    // The variables that the line reads, or writes.
    fn named(self, access: Access) -> [Option<u8>; 2]
        ensures { present result ≡ named access self }
    {
        match access {
            Access::Read => self.reads(),
            Access::Write => [self.writes(), None],
        }
    }

    // How often the line reads, or writes, a variable. Both are what `Sheet::tally` is asked by; `named` needs the access alone.
    fn times(self, access: Access, variable: u8) -> u16
        ensures value { result ≡ times variable (named access self) }
        ensures low { result ≤ 2 }
    {
        times_in(&self.named(access), variable) as u16
    }
}

// How many of these names are the variable's.
fn times_in(names: &[Option<u8>], variable: u8) -> usize
    ensures value { result ≡ count_by (λ name. option_eq nat_eq (Some variable) name) names.now }
    ensures low { result ≤ length names.now }
{
    names.iter().filter(|name| Some(variable) == **name).count()
}

// How often, and at what weight, lines read or write a variable.
fn tally_of(lines: &[Line], access: Access, variable: u8) -> Tally
    requires { length lines.now ≤ 64 }
    ensures { result ≡ tally_of access lines.now variable }
{
    let mut count = 0;
    let mut weight = 0;
    for line in lines {
        let times = line.times(access, variable);
        count += times;
        weight += u16::from(line.weight()) * times;
    }
    Tally { count, weight }
}

// What one line costs with everything in memory.
fn line_in_memory<P: Price>(line: Line) -> P
    ensures { result ≡ line_price P.Price everything_in_memory line }
{
    let one = P::access_price(line.weight());
    match line {
        Line::Input { .. } | Line::Output { .. } | Line::GoToIfZero { .. } => one,
        Line::Copy { .. } | Line::UpperHalf { .. } => one.add(one),
        Line::Add { .. } | Line::Multiply { .. } => one.add(one.add(one)),
        Line::GoTo { .. } | Line::End => P::zero(),
    }
}

impl Sheet {
    // How often, and at what weight, the standing lines read or write a variable.
    pub fn tally(&self, access: Access, variable: u8) -> Tally
        ensures { result ≡ tally_of access (content_of self.now).lines variable }
    {
        tally_of(self.lines(), access, variable)
    }

    // What the standing lines cost with everything in memory.
    pub fn price_in_memory<P: Price>(&self) -> P
        ensures { result ≡ price P.Price (content_of self.now).lines everything_in_memory }
    {
        let mut total = P::zero();
        for line in self.lines() {
            total = total.add(line_in_memory(*line));
        }
        total
    }
}
