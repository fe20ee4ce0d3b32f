// Rooms for the largest block, 8 by 8: a file may turn out to have a fault in its last line.
ghost use Rattle.std.specs.Prelude.{◌≡◌, ◌*◌, length};
ghost use Rattle.ports.specs.Lengths.{positions};

use ports::lengths::POSITIONS;

const TILES: usize = 64;

const DIGITS: usize = TILES * POSITIONS;

// A mark for each tile. The promise gives the length alone, which is what lending a part asks for.
pub fn given_room() -> [u8; TILES]
    ensures { 64 ≡ length result }
{
    [0; TILES]
}

// A digit for each bit.
pub fn content_room() -> [u8; DIGITS]
    ensures { 64 * positions ≡ length result }
{
    [0; DIGITS]
}
