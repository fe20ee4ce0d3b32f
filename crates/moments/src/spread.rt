// Settling every port's value of input that was checked: a list is run on a state and lent values, then each port takes its wire's value.
// It assumes what the checks of settling have shown, and is for callers that settle many times.
ghost use Rattle.std.specs.Prelude.{◌≡◌, length};
ghost use Rattle.ports.specs.Block.{Sized};
ghost use Rattle.ports.specs.Lengths.{ports};
ghost use Rattle.fabric.specs.Wire.{wires_of};
ghost use Rattle.stepper.specs.Settling.{settled_by, port_values, wire_marks, Runnable};

use netlist::check::count_wires;
use ports::size::Block;
use stepper::settle::settle;

// Settles every port's value under a state and lent values.
// Rules out: a run that repeats an earlier one; a wire's value at its lowest port alone.
pub fn settle_ports(
    b: Block,
    list: &[u16],
    state: &[u8],
    lent: &[u8],
    wires: &[u16],
    own: &[u16],
    values: &mut [u8],
)
    requires { Sized b × (wires.now ≡ wires_of b) × (own.now ≡ wire_marks b) × Runnable b list.now state.now lent.now ×
        (length values.old ≡ ports b) }
    ensures { values.new ≡ port_values b (settled_by b list.now state.now lent.now) }
{
    let count = count_wires(own);
    settle(b, list, count, state, lent, values);
    spread_values(b, wires, values);
}

// Gives each port its wire's value, in the room where the run has left the wires' values: a wire is the lowest of its ports, so its value stands
// there still when the others take it.
// Rules out: a port left out; a port that keeps the value at its own number, which only a wire's lowest port has.
pub fn spread_values(b: Block, wires: &[u16], values: &mut [u8])
    requires { (wires.now ≡ wires_of b) × (length values.old ≡ ports b) }
    ensures { values.new ≡ port_values b values.old }
{
    for (p, wire) in wires.iter().enumerate() {
        values[p] = values[usize::from(*wire)];
    }
}
