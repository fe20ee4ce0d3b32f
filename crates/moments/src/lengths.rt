// Ground 2 of settling and of clocking: how long what is lent to them is, and whether that is exact.
ghost use Rattle.std.specs.Prelude.{◌≡◌};
ghost use Rattle.ports.specs.Block.{Allowed, Sized};
ghost use Rattle.moments.specs.Lengths.{settle_exact, clock_exact};

use ports::lengths::{TABLE_LENGTH, list_length, port_count, settings_total, state_length};
use ports::size::{Block, Size, size_of};

// The lengths of the output of `settle` and of its work room.
#[derive(Clone, Copy, PartialEq, Eq)]
pub struct SettleRoomLent {
    pub values: usize,
    pub wires: usize,
    pub own: usize,
    pub marks: usize,
}

// The lengths of all that is lent to `settle`.
#[derive(Clone, Copy, PartialEq, Eq)]
pub struct SettleLent {
    pub table: usize,
    pub settings: usize,
    pub list: usize,
    pub state: usize,
    pub lent: usize,
    pub room: SettleRoomLent,
}

// The lengths of all that is lent to `clock`.
#[derive(Clone, Copy, PartialEq, Eq)]
pub struct ClockLent {
    pub table: usize,
    pub settings: usize,
    pub state: usize,
    pub before: usize,
    pub after: usize,
    pub next: usize,
}

// Rules out: the output or a part of the work room that is not looked at.
pub fn is_settle_exact(b: Block, all: SettleLent) -> bool
    requires { Sized b }
    ensures { result ≡ settle_exact b all }
{
    let ports = port_count(b);
    all == SettleLent {
        table: TABLE_LENGTH,
        settings: settings_total(size_of(b)),
        list: list_length(b),
        state: state_length(size_of(b)),
        lent: ports,
        room: SettleRoomLent {
            values: ports,
            wires: ports,
            own: ports,
            marks: ports,
        },
    }
}

pub fn is_clock_exact(s: Size, all: ClockLent) -> bool
    requires { Allowed s }
    ensures { result ≡ clock_exact s all }
{
    let cells = state_length(s);
    let ports = port_count(Block {
        w: s.w,
        h: s.h,
        east: 0,
    });
    all == ClockLent {
        table: TABLE_LENGTH,
        settings: settings_total(s),
        state: cells,
        before: ports,
        after: ports,
        next: cells,
    }
}
