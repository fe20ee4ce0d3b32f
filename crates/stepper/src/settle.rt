// Running a list on a state and lent values, and the value of each port. Both assume what the checks of a step have shown.
ghost use Rattle.std.specs.Prelude.{◌≡◌, length};
ghost use Rattle.ports.specs.Lengths.{ports};
ghost use Rattle.fabric.specs.Count.{wires};
ghost use Rattle.fabric.specs.Wire.{wires_of};
ghost use Rattle.stepper.specs.Settling.{settled_by, port_values, Runnable};

use netlist::run::run;
use ports::size::Block;

// Settles the wires' values under a state and lent values: as many rows are run as the block has wires, which is `count`.
// Rules out: a number of rows that is made up; values of an earlier run that shine through.
pub fn settle(b: Block, list: &[u16], count: usize, state: &[u8], lent: &[u8], values: &mut [u8])
    requires { Runnable b list.now state.now lent.now × (count ≡ wires b) × (length values.old ≡ ports b) }
    ensures { values.new ≡ settled_by b list.now state.now lent.now }
{
    values.fill(0);
    run(list, count, state, lent, values);
}

// Writes each port's value, that of its wire.
// Rules out: a port left out; the value at the port's own number, which only a wire's lowest port has.
pub fn write_values(b: Block, wires: &[u16], x: &[u8], values: &mut [u8])
    requires { (wires.now ≡ wires_of b) × (length x.now ≡ ports b) × (length values.old ≡ ports b) }
    ensures { values.new ≡ port_values b x.now }
{
    for (p, value) in values.iter_mut().enumerate() {
        *value = x[usize::from(wires[p])];
    }
}
