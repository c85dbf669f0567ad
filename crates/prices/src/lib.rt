// Prices: what a placement costs. The trait with its laws, and the two kinds that the product uses.
#![tactic(auto)]

mod plain;
mod plain_kind;
mod price;
mod ranked;
mod ranked_kind;

pub use plain::Plain;
pub use price::Price;
pub use ranked::Ranked;
