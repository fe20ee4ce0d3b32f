// The line of a tile, put into a room.
ghost use Rattle.std.specs.Prelude.{◌≡◌, ◌+◌, ◌≤◌, ◌<◌, length};
ghost use Rattle.texts.specs.Pieces.{placed};
ghost use Rattle.asc.specs.Spelling.{tile_line};

use texts::decimal::put_decimal;
use texts::put;

// The line of the tile at x, y, without its line feed. Answers where the next piece goes.
pub fn put_tile_line(out: &mut [u8], at: usize, x: u32, y: u32) -> usize
    requires { (x < 256) × (y < 256) × (at + length (tile_line x y) ≤ length out.old) }
    ensures next { result ≡ at + length (tile_line x y) }
    ensures out { out.new ≡ placed at (tile_line x y) out.old }
{
    let one = put(out, at, b".logic_tile ");
    let two = put_decimal(out, one, x);
    let three = put(out, two, b" ");
    put_decimal(out, three, y)
}
