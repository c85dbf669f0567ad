// A record as a part of the file that holds it.
ghost use Rattle.std.specs.Prelude.{◌≡◌};
ghost use Rattle.files.specs.Cut.{size_of};

use sheets::record_length;

#[derive(Clone, Copy, Debug)]
pub struct Part<'a> {
    pub bytes: &'a [u8],
    pub offset: usize,
}

// The length of a record of this kind, where an unknown kind makes a record of one byte.
pub(crate) fn size_of(kind: u8) -> usize
    ensures { result ≡ size_of kind }
{
    record_length(kind).unwrap_or(1)
}
