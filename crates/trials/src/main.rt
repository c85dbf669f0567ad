// Runs random graphs through every solver and compares each answer with a plain search.
#![tactic(auto)]

mod asked;
mod by_hand;
mod case;
mod chance;
mod frontier;
mod refusal;
mod run;
mod sample;
mod shape;
mod tally;
mod trial;
mod variable;

use case::Case;
use prices::{Plain, Ranked};
use run::run;
use std::io;

// Seeds with many bits set, so that the first numbers are as random as the later ones.
const PLAIN_SEED: u64 = 0x9e37_79b9_7f4a_7c15;

const RANKED_SEED: u64 = 0xd1b5_4a32_d192_ed03;

fn main(rt: HostRuntime) -> io::Result<()> {
    run(&rt, "plain", PLAIN_SEED, &mut Case::<Plain>::new())?;
    run(&rt, "ranked", RANKED_SEED, &mut Case::<Ranked>::new())
}
