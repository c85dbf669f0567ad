// The reader: steps through a file, and hands out each record as a part of it.
ghost use Rattle.std.specs.Prelude.{◌≤◌, length};

use crate::part::{Part, size_of};

#[derive(Drop)]
pub struct Reader<'a> {
    file: &'a [u8],
    offset: usize,
    ghost inside: { offset ≤ length file.now },
}

impl<'a> Reader<'a> {
    ghost use Rattle.std.specs.Prelude.{◌≡◌};
    ghost use Rattle.std.specs.List.{flat_map};
    ghost use Rattle.files.specs.Cut.{bytes_of, cut, left_of};
    ghost use Rattle.files.specs.Rules.{CutByKind};

    pub fn new(file: &'a [u8]) -> Reader<'a>
        ensures parts { left_of result ≡ cut file.now }
        ensures rule { CutByKind file.now (cut file.now) }
        ensures whole { flat_map bytes_of (cut file.now) ≡ file.now }
    {
        Reader { file, offset: 0 }
    }
}

impl<'a> Iterator for Reader<'a> {
    ghost use Rattle.std.specs.Iterator.{YieldsFirstBy, item_count};
    ghost use Rattle.files.specs.Cut.{left_of, piece_of};

    type Item = Part<'a>;

    ghost next_gives = { YieldsFirstBy piece_of left_of };

    ghost remaining = { item_count left_of };

    fn next(&mut self) -> Option<Part<'a>> {
        let offset = self.offset;
        let rest = &self.file[offset..];
        let size = size_of(*rest.first()?).min(rest.len());
        self.offset = offset + size;
        Some(Part {
            bytes: &rest[..size],
            offset,
        })
    }
}
