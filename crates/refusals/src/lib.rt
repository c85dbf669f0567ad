// Refusals: what whoever is refused is told, whichever part it was that refused.
#![tactic(auto)]

mod told;

pub use told::Told;
