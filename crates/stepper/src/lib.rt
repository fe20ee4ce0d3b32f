// A step of input that was checked (document 01, 'The list and a step'): its list run on the values before and after, every port's value, every
// cell's next state. It is for callers that make many steps; `sim` has the call that checks any input first.
#![tactic(auto)]

ghost use Rattle.std.specs.Prelude.{◌≡◌, ◌*◌, length};
ghost use Rattle.ports.specs.Block.{tiles};
ghost use Rattle.ports.specs.Lengths.{ports};
ghost use Rattle.equations.specs.Routed.{Mapped};
ghost use Rattle.stepper.specs.Settling.{settled_by, port_values, wire_marks, Runnable};
ghost use Rattle.stepper.specs.Clocking.{next_states};

use crate::clock::clock;
use crate::settle::{settle, write_values};
use netlist::check::count_wires;
use ports::size::Block;

pub mod clock;
pub mod settle;

// What a step writes: the list is run on before and on after, both with the old state. `first` and `second` have the wires' values of the two runs.
// Rules out: the after-run with the new state, or left out; a step that repeats an earlier one.
pub fn write_step(
    b: Block,
    settings: &[u16],
    list: &[u16],
    state: &[u8],
    before: &[u8],
    after: &[u8],
    wires: &[u16],
    own: &[u16],
    values: &mut [u8],
    next: &mut [u8],
    first: &mut [u8],
    second: &mut [u8],
)
    requires { Mapped b settings.now wires.now × (own.now ≡ wire_marks b) × Runnable b list.now state.now before.now ×
        Runnable b list.now state.now after.now × (length values.old ≡ ports b) × (length next.old ≡ 8 * tiles b) ×
        (length first.old ≡ ports b) × (length second.old ≡ ports b) }
    ensures values { values.new ≡ port_values b (settled_by b list.now state.now before.now) }
    ensures next { next.new ≡ next_states b settings.now
        (settled_by b list.now state.now before.now)
        (settled_by b list.now state.now after.now) state.now }
    ensures first { first.new ≡ settled_by b list.now state.now before.now }
    ensures second { second.new ≡ settled_by b list.now state.now after.now }
{
    let count = count_wires(own);
    settle(b, list, count, state, before, first);
    settle(b, list, count, state, after, second);
    write_values(b, wires, first, values);
    clock(b, settings, wires, first, second, state, next);
}
