// A table: 125 prices of a lent memory, and the picks of each place beside them.
// The prices stand in the memory that a solver asks for by its need; the picks are no prices, so they stand apart from them.
ghost use Rattle.std.specs.Prelude.{◌≡◌, length};

// How many places a table has: one for each assignment of at most three variables.
pub(crate) const PLACES: usize = 125;

#[derive(Drop)]
pub(crate) struct Table<'t, P> {
    pub(crate) prices: &'t mut [P],
    pub(crate) picks: [[u8; 12]; PLACES],
    ghost room: { length prices.now ≡ 125 },
    ghost beside: { length picks ≡ 125 },
}
