// Clocking the cells of a block whose size is allowed, of what has the exact lengths: the checks of the contents, then what is written.
ghost use Rattle.std.specs.Prelude.{◌≡◌, ◌++◌, length};
ghost use Rattle.refusal.specs.Grounds.{answer_number};
ghost use Rattle.refusal.specs.Memory.{output};
ghost use Rattle.ports.specs.Block.{tile_count, Allowed};
ghost use Rattle.moments.specs.Clocking.{handed, next_states};
ghost use Rattle.moments.specs.Checks.{settings_answer, bytes_answer};
ghost use Rattle.moments.specs.Lengths.{clock_lent, ClockLong};

use crate::cells;
use config::check_settings;
use ports::size::{Size, tile_count};
use refusal::Refusal;
use sim::checks::check_bytes;

// Grounds 3, 9 and 10, and on a yes what is written.
#[tactic(auto, unfolding(config::specs::Entry::settings_answer, crate::specs::Checks::settings_answer, crate::specs::Checks::bytes_answer))]
pub fn clock_checked(
    s: Size,
    table: &[u16],
    settings: &[u16],
    state: &[u8],
    before: &[u8],
    after: &[u8],
    next: &mut [u8],
) -> Result<(), Refusal>
    requires { Allowed s × ClockLong s (clock_lent table.now settings.now state.now before.now after.now (length next.old)) }
    ensures answer { result ≡ settings_answer table.now settings.now (tile_count s)
        (bytes_answer (state.now ++ before.now ++ after.now)) }
    ensures next { next.new ≡ output (answer_number result) next.old
        (next_states s settings.now (handed before.now) (handed after.now) state.now) }
{
    check_settings(table, settings, tile_count(s))?;
    check_bytes(state, before, after)?;
    cells::clock(s, settings, before, after, state, next);
    Ok(())
}
