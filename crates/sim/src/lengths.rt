// Ground 2 of a step: how long what is lent to it is, and whether that is exact.
ghost use Rattle.std.specs.Prelude.{◌≡◌};
ghost use Rattle.ports.specs.Block.{Sized};
ghost use Rattle.sim.specs.Lengths.{step_exact};

use ports::lengths::{TABLE_LENGTH, list_length, port_count, settings_total, state_length};
use ports::size::{Block, size_of};

// The lengths of what a step reads.
#[derive(Clone, Copy, PartialEq, Eq)]
pub struct InputsLent {
    pub table: usize,
    pub settings: usize,
    pub list: usize,
    pub state: usize,
    pub before: usize,
    pub after: usize,
}

// The lengths of its outputs and of its work room.
#[derive(Clone, Copy, PartialEq, Eq)]
pub struct StepRoomLent {
    pub values: usize,
    pub next: usize,
    pub wires: usize,
    pub own: usize,
    pub marks: usize,
    pub first: usize,
    pub second: usize,
}

#[derive(Clone, Copy, PartialEq, Eq)]
pub struct StepLent {
    pub inputs: InputsLent,
    pub room: StepRoomLent,
}

// Rules out: an output or a part of the work room that is not looked at.
pub fn is_step_exact(b: Block, lent: StepLent) -> bool
    requires { Sized b }
    ensures { result ≡ step_exact b lent }
{
    let cells = state_length(size_of(b));
    let ports = port_count(b);
    lent == StepLent {
        inputs: InputsLent {
            table: TABLE_LENGTH,
            settings: settings_total(size_of(b)),
            list: list_length(b),
            state: cells,
            before: ports,
            after: ports,
        },
        room: StepRoomLent {
            values: ports,
            next: cells,
            wires: ports,
            own: ports,
            marks: ports,
            first: ports,
            second: ports,
        },
    }
}
