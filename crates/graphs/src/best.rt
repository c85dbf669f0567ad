// A price with an assignment that has it.

#[derive(Clone, Copy)]
pub(crate) struct Best<P> {
    pub price: P,
    pub picks: [u8; 12],
}
