// Settling a block and clocking its cells in two calls, beside the step of `sim`: what every port has under a state and lent values, without any
// tick, and how every cell's state moves from what the ports have before and after. Settling twice, before and after, and clocking what that wrote
// is the step.
//
// `settle` and `clock` take any input and none has a `requires`: first the checks, then what is written. specs/Settling.antt and specs/Clocking.antt
// have the grounds in their orders, specs/Meaning.antt what each answer says. `settle` takes any list that ground 12 lets pass, the block's own or
// not, and `clock` any values of 0 and 1. `spread` and `cells` have what they write, for callers that have checked their input.
#![tactic(auto)]

ghost use Rattle.std.specs.Prelude.{◌≡◌, length};
ghost use Rattle.refusal.specs.Grounds.{answer_number};
ghost use Rattle.refusal.specs.Memory.{output, work_room};
ghost use Rattle.stepper.specs.Settling.{settled_by, port_values};
ghost use Rattle.moments.specs.Clocking.{handed, next_states};
ghost use Rattle.moments.specs.Settling.{settle_answer};
ghost use Rattle.moments.specs.Clocking.{clock_answer};
ghost use Rattle.moments.specs.Lengths.{settle_room_lent, settle_lent, settle_exact, clock_lent, clock_exact};
ghost use Rattle.moments.specs.Meaning.{SettleSays, ClockSays};

use crate::lengths::{ClockLent, SettleLent, SettleRoomLent, is_clock_exact, is_settle_exact};
use ports::size::{Block, Size};
use refusal::Refusal;

pub mod cells;
mod clocking;
pub mod lengths;
mod settling;
pub mod spread;

// Settles every port's value under a state and lent values, without any tick. Grounds 1, 2, 3, 9, 12, 10, in this order (`settle_answer`). The output is
// values; the work room is wires, own and marks.
// Rules out: settling that repeats an earlier one; values of ports that are not their wires'; values written on a no; work room left as it was used.
pub fn settle(
    b: Block,
    table: &[u16],
    settings: &[u16],
    list: &[u16],
    state: &[u8],
    lent: &[u8],
    values: &mut [u8],
    wires: &mut [u16],
    own: &mut [u16],
    marks: &mut [u16],
) -> Result<(), Refusal>
    ensures answer { result ≡ settle_answer b table.now settings.now list.now state.now
        lent.now (settle_exact b (settle_lent table.now settings.now list.now
        state.now lent.now
        (settle_room_lent values.old wires.old own.old marks.old))) }
    ensures values { values.new ≡ output (answer_number result) values.old
        (port_values b (settled_by b list.now state.now lent.now)) }
    ensures wires { wires.new ≡ work_room (answer_number result) wires.old }
    ensures own { own.new ≡ work_room (answer_number result) own.old }
    ensures marks { marks.new ≡ work_room (answer_number result) marks.old }
    ensures says { SettleSays b table.now settings.now list.now state.now
        lent.now (settle_lent table.now settings.now list.now state.now
        lent.now (settle_room_lent values.old wires.old own.old marks.old)) result }
{
    if !ports::size::is_sized(b) {
        return Err(Refusal::WrongSize);
    }
    let room = SettleRoomLent {
        values: values.len(),
        wires: wires.len(),
        own: own.len(),
        marks: marks.len(),
    };
    let all = SettleLent {
        table: table.len(),
        settings: settings.len(),
        list: list.len(),
        state: state.len(),
        lent: lent.len(),
        room,
    };
    if !is_settle_exact(b, all) {
        return Err(Refusal::WrongLength);
    }
    let r = settling::settle_checked(
        b, table, settings, list, state, lent, values, wires, own, marks,
    );
    wires.fill(0);
    own.fill(0);
    marks.fill(0);
    r
}

// Moves every cell's state, from the values settled before and after and the old state. Grounds 1, 2, 3, 9, 10, in this order (`clock_answer`). The
// output is next; there is no work room. It reads each tile's own clk, cen, s_r and in ports, whatever it is handed there, and runs no list.
// Rules out: a clock that goes by wires; settled values above 1; a new state written on a no.
pub fn clock(
    s: Size,
    table: &[u16],
    settings: &[u16],
    state: &[u8],
    before: &[u8],
    after: &[u8],
    next: &mut [u8],
) -> Result<(), Refusal>
    ensures answer { result ≡ clock_answer s table.now settings.now state.now before.now
        after.now (clock_exact s (clock_lent table.now settings.now state.now
        before.now after.now (length next.old))) }
    ensures next { next.new ≡ output (answer_number result) next.old
        (next_states s settings.now (handed before.now) (handed after.now) state.now) }
    ensures says { ClockSays s table.now settings.now state.now before.now
        after.now (clock_lent table.now settings.now state.now before.now
        after.now (length next.old)) result }
{
    if !ports::size::is_allowed(s) {
        return Err(Refusal::WrongSize);
    }
    let all = ClockLent {
        table: table.len(),
        settings: settings.len(),
        state: state.len(),
        before: before.len(),
        after: after.len(),
        next: next.len(),
    };
    if !is_clock_exact(s, all) {
        return Err(Refusal::WrongLength);
    }
    clocking::clock_checked(s, table, settings, state, before, after, next)
}
