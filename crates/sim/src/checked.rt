// A step whose block has a size and whose lengths are right: the checks of the contents, then what is written.
ghost use Rattle.std.specs.Prelude.{◌≡◌, length};
ghost use Rattle.refusal.specs.Grounds.{answer_number};
ghost use Rattle.refusal.specs.Memory.{output};
ghost use Rattle.ports.specs.Block.{Sized};
ghost use Rattle.ports.specs.Lengths.{ports};
ghost use Rattle.fabric.specs.Wire.{wires_of};
ghost use Rattle.stepper.specs.Settling.{settled_by, port_values, wire_marks};
ghost use Rattle.stepper.specs.Clocking.{next_states};
ghost use Rattle.sim.specs.Stepping.{inputs_answer};
ghost use Rattle.sim.specs.Lengths.{inputs_lent, InputsLong, step_room_lent, StepRoomLong};

use crate::checks::{check_bytes, check_rows};
use config::check_settings;
use ports::size::Block;
use refusal::Refusal;
use stepper::write_step;

// Grounds 3, 9, 12 and 10, in this order (`inputs_answer`). On a yes `wires` has the wire of each port, and `own` marks those that are
// their own wires. It is not given the outputs.
#[tactic(auto, unfolding(config::specs::Entry::settings_answer, crate::specs::Stepping::inputs_answer, crate::specs::Stepping::run_answer))]
fn check_inputs(
    b: Block,
    table: &[u16],
    settings: &[u16],
    list: &[u16],
    state: &[u8],
    before: &[u8],
    after: &[u8],
    wires: &mut [u16],
    own: &mut [u16],
    marks: &mut [u16],
) -> Result<(), Refusal>
    requires sized { Sized b × InputsLong b (inputs_lent table.now settings.now list.now state.now before.now after.now) }
    requires wires_len { (length wires.old ≡ ports b) × (length own.old ≡ ports b) × (length marks.old ≡ ports b) }
    ensures answer { result ≡ inputs_answer b table.now settings.now list.now
        state.now before.now after.now }
    ensures wires { result ≡ (Ok tt) → wires.new ≡ wires_of b }
    ensures own { result ≡ (Ok tt) → own.new ≡ wire_marks b }
{
    check_settings(table, settings, (b.h * b.w) as usize)?;
    check_rows(b, list, state.len(), wires, own, marks)?;
    check_bytes(state, before, after)
}

// Those checks, and on a yes what is written.
pub fn step_checked(
    b: Block,
    table: &[u16],
    settings: &[u16],
    list: &[u16],
    state: &[u8],
    before: &[u8],
    after: &[u8],
    values: &mut [u8],
    next: &mut [u8],
    wires: &mut [u16],
    own: &mut [u16],
    marks: &mut [u16],
    first: &mut [u8],
    second: &mut [u8],
) -> Result<(), Refusal>
    requires sized { Sized b }
    requires inputs_long { InputsLong b (inputs_lent table.now settings.now list.now state.now before.now after.now) }
    requires step_room_long { StepRoomLong b (step_room_lent values.old next.old wires.old own.old marks.old first.old second.old) }
    ensures answer { result ≡ inputs_answer b table.now settings.now list.now
        state.now before.now after.now }
    ensures values { values.new ≡ output (answer_number result) values.old
        (port_values b (settled_by b list.now state.now before.now)) }
    ensures next { next.new ≡ output (answer_number result) next.old
        (next_states b settings.now (settled_by b list.now state.now before.now)
        (settled_by b list.now state.now after.now) state.now) }
{
    check_inputs(
        b, table, settings, list, state, before, after, wires, own, marks,
    )?;
    write_step(
        b, settings, list, state, before, after, wires, own, values, next, first, second,
    );
    Ok(())
}
