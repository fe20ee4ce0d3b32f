// Settling a block that has a size, of what has the exact lengths: the checks of the contents, then what is written.
ghost use Rattle.std.specs.Prelude.{◌≡◌};
ghost use Rattle.refusal.specs.Grounds.{answer_number};
ghost use Rattle.refusal.specs.Memory.{output};
ghost use Rattle.ports.specs.Block.{tiles, Sized};
ghost use Rattle.stepper.specs.Settling.{settled_by, port_values};
ghost use Rattle.moments.specs.Checks.{settings_answer};
ghost use Rattle.moments.specs.Settling.{run_answer};
ghost use Rattle.moments.specs.Lengths.{settle_room_lent, settle_lent, SettleLong};

use crate::spread::settle_ports;
use config::check_settings;
use ports::size::Block;
use refusal::Refusal;
use sim::checks::{check_bytes, check_rows};

// Grounds 3, 9, 12 and 10, and on a yes what is written.
#[tactic(auto, unfolding(config::specs::Entry::settings_answer, crate::specs::Checks::settings_answer, crate::specs::Checks::bytes_answer, crate::specs::Settling::run_answer))]
pub fn settle_checked(
    b: Block,
    table: &[u16],
    settings: &[u16],
    list: &[u16],
    state: &[u8],
    lent: &[u8],
    values: &mut [u8],
    wires: &mut [u16],
    own: &mut [u16],
    marks: &mut [u16],
) -> Result<(), Refusal>
    requires { Sized b × SettleLong b (settle_lent table.now settings.now list.now state.now lent.now
        (settle_room_lent values.old wires.old own.old marks.old)) }
    ensures answer { result ≡ settings_answer table.now settings.now (tiles b)
        (run_answer b list.now state.now lent.now) }
    ensures values { values.new ≡ output (answer_number result) values.old
        (port_values b (settled_by b list.now state.now lent.now)) }
{
    check_settings(table, settings, (b.h * b.w) as usize)?;
    check_rows(b, list, state.len(), wires, own, marks)?;
    check_bytes(state, lent, &[])?;
    settle_ports(b, list, state, lent, wires, own, values);
    Ok(())
}
