// Which variables are present, and how many choices each has. The prices stand in a cost memory.
ghost use Rattle.std.specs.Prelude.{◌≡◌, ◌%◌, ◌<◌, true, map, length};
ghost use Rattle.graphs.specs.Counts.{sized, clamped_to};

#[derive(Clone, Copy)]
pub struct Graph {
    pub(crate) present: u16,
    pub(crate) counts: [u8; 12],
    ghost few: { present < 4096 },
    ghost counted: { sized counts ≡ true },
    ghost twelve: { length counts ≡ 12 },
}

fn clamped(n: u8) -> u8
    ensures { result ≡ clamped_to n }
{
    n.clamp(1, 5)
}

impl Graph {
    // Bits above the twelve variables are dropped; a count of 0 becomes 1, one above 5 becomes 5.
    pub fn new(present: u16, counts: [u8; 12]) -> Graph
        ensures present { result.present ≡ present % 4096 }
        ensures counts { result.counts ≡ map clamped_to counts }
    {
        Graph {
            present: present & 4095,
            counts: counts.map(clamped),
        }
    }
}
