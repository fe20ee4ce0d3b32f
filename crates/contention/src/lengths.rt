// Ground 2, "a lent length differs from the exact one": the lengths of what is lent to `contentions`, and whether they are exact. The list may have any
// length.
ghost use Rattle.std.specs.Prelude.{◌≡◌};
ghost use Rattle.ports.specs.Block.{Sized};
ghost use Rattle.contention.specs.Lengths.{contention_exact};

use ports::lengths::{MAX_GROUPS, TABLE_LENGTH, bits_length, port_count, settings_total};
use ports::size::{Block, size_of, tile_count};

// The lengths of all that is lent to `contentions` but the list.
#[derive(Clone, Copy, PartialEq, Eq)]
pub struct ContentionLent {
    pub table: usize,
    pub bits: usize,
    pub settings: usize,
    pub wires: usize,
    pub heads: usize,
    pub nexts: usize,
}

pub fn is_contention_exact(b: Block, lent: ContentionLent) -> bool
    requires { Sized b }
    ensures { result ≡ contention_exact b lent }
{
    let size = size_of(b);
    let ports = port_count(b);
    lent == ContentionLent {
        table: TABLE_LENGTH,
        bits: bits_length(size),
        settings: settings_total(size),
        wires: ports,
        heads: ports,
        nexts: MAX_GROUPS * tile_count(size),
    }
}
