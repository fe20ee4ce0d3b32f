// A step of a block (document 01, 'The list and a step') as a call that takes any input: the checks, then what `stepper` writes, which assumes them.
//
// `step` takes any input and has no `requires`; specs/Stepping.antt has the grounds in their order, specs/Meaning.antt what each answer
// says. It takes any list that ground 12 lets pass, the block's own or not. What a step means for a block's own list is the theorem of demand 3, above this crate.
#![tactic(auto)]

ghost use Rattle.std.specs.Prelude.{◌≡◌};
ghost use Rattle.refusal.specs.Grounds.{answer_number};
ghost use Rattle.refusal.specs.Memory.{output, work_room};
ghost use Rattle.stepper.specs.Settling.{settled_by, port_values};
ghost use Rattle.stepper.specs.Clocking.{next_states};
ghost use Rattle.sim.specs.Stepping.{step_answer};
ghost use Rattle.sim.specs.Lengths.{inputs_lent, step_room_lent, step_lent, step_exact};
ghost use Rattle.sim.specs.Meaning.{StepSays};

use crate::lengths::{InputsLent, StepLent, StepRoomLent, is_step_exact};
use ports::size::Block;
use refusal::Refusal;

mod checked;
pub mod checks;
pub mod lengths;

// One step. Grounds 1, 2, 3, 9, 12, 10, in this order (`step_answer`). The outputs are values and next; the work room is wires, own,
// marks and two sets of wire values.
// Rules out: a stepper that repeats its first step; the after-run with the new state; values of ports that are not their wires';
// outputs written on a no; work room left as it was used.
pub fn step(
    b: Block,
    table: &[u16],
    settings: &[u16],
    list: &[u16],
    state: &[u8],
    before: &[u8],
    after: &[u8],
    values: &mut [u8],
    next: &mut [u8],
    wires: &mut [u16],
    own: &mut [u16],
    marks: &mut [u16],
    first: &mut [u8],
    second: &mut [u8],
) -> Result<(), Refusal>
    ensures answer { result ≡ step_answer b table.now settings.now list.now state.now
        before.now after.now
        (step_exact b (step_lent (inputs_lent table.now settings.now list.now state.now
        before.now after.now) (step_room_lent values.old next.old wires.old
        own.old marks.old first.old second.old))) }
    ensures values { values.new ≡ output (answer_number result) values.old
        (port_values b (settled_by b list.now state.now before.now)) }
    ensures next { next.new ≡ output (answer_number result) next.old
        (next_states b settings.now (settled_by b list.now state.now before.now)
        (settled_by b list.now state.now after.now) state.now) }
    ensures wires { wires.new ≡ work_room (answer_number result) wires.old }
    ensures own { own.new ≡ work_room (answer_number result) own.old }
    ensures marks { marks.new ≡ work_room (answer_number result) marks.old }
    ensures first { first.new ≡ work_room (answer_number result) first.old }
    ensures second { second.new ≡ work_room (answer_number result) second.old }
    ensures says { StepSays b table.now settings.now list.now state.now
        before.now after.now
        (step_lent (inputs_lent table.now settings.now list.now state.now
        before.now after.now) (step_room_lent values.old next.old wires.old
        own.old marks.old first.old second.old)) result }
{
    if !ports::size::is_sized(b) {
        return Err(Refusal::WrongSize);
    }
    let inputs = InputsLent {
        table: table.len(),
        settings: settings.len(),
        list: list.len(),
        state: state.len(),
        before: before.len(),
        after: after.len(),
    };
    let room = StepRoomLent {
        values: values.len(),
        next: next.len(),
        wires: wires.len(),
        own: own.len(),
        marks: marks.len(),
        first: first.len(),
        second: second.len(),
    };
    if !is_step_exact(b, StepLent { inputs, room }) {
        return Err(Refusal::WrongLength);
    }
    let r = checked::step_checked(
        b, table, settings, list, state, before, after, values, next, wires, own, marks, first,
        second,
    );
    wires.fill(0);
    own.fill(0);
    marks.fill(0);
    first.fill(0);
    second.fill(0);
    r
}
