// Ground 2: how long what is lent to `build` and `follow` is, and whether that is exact.
ghost use Rattle.std.specs.Prelude.{◌≡◌};
ghost use Rattle.ports.specs.Block.{Sized};
ghost use Rattle.block.specs.Lengths.{build_exact, follow_exact};

use ports::lengths::{TABLE_LENGTH, bits_length, list_length, port_count, settings_total};
use ports::size::{Block, size_of};

// The lengths of the list and of the work room to write it.
#[derive(Clone, Copy, PartialEq, Eq)]
pub struct RoomLent {
    pub list: usize,
    pub wires: usize,
    pub sources: usize,
    pub rows: usize,
    pub marks: usize,
    pub queue: usize,
}

// The lengths of all that is lent to `build`.
#[derive(Clone, Copy, PartialEq, Eq)]
pub struct BuildLent {
    pub table: usize,
    pub bits: usize,
    pub settings: usize,
    pub room: RoomLent,
}

// The lengths of all that is lent to `follow`.
#[derive(Clone, Copy, PartialEq, Eq)]
pub struct FollowLent {
    pub table: usize,
    pub settings: usize,
    pub wires: usize,
    pub sources: usize,
    pub marks: usize,
}

pub fn is_build_exact(b: Block, lent: BuildLent) -> bool
    requires { Sized b }
    ensures { result ≡ build_exact b lent }
{
    let size = size_of(b);
    let ports = port_count(b);
    let numbers = list_length(b);
    lent == BuildLent {
        table: TABLE_LENGTH,
        bits: bits_length(size),
        settings: settings_total(size),
        room: RoomLent {
            list: numbers,
            wires: ports,
            sources: ports,
            rows: numbers,
            marks: ports,
            queue: ports,
        },
    }
}

pub fn is_follow_exact(b: Block, lent: FollowLent) -> bool
    requires { Sized b }
    ensures { result ≡ follow_exact b lent }
{
    let ports = port_count(b);
    lent == FollowLent {
        table: TABLE_LENGTH,
        settings: settings_total(size_of(b)),
        wires: ports,
        sources: ports,
        marks: ports,
    }
}
