// Room for the settings of the largest block, 8 by 8: reading decodes into it, for a block may turn out to have none when its last tile is met.
ghost use Rattle.std.specs.Prelude.{◌≡◌, length};
ghost use Rattle.config.specs.Blocks.{room_length};

use ports::lengths::SETTINGS_LENGTH;

const SETTINGS: usize = 64 * SETTINGS_LENGTH;

// Room of zeros. The promise gives the length alone, which is what lending a part of it asks for.
pub fn settings_room() -> [u16; SETTINGS]
    ensures { room_length ≡ length result }
{
    [0; SETTINGS]
}
