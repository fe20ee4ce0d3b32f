// The tests that a line is put to. A line is a slice without its line feed.
ghost use Rattle.std.specs.Prelude.{◌≡◌, ◌≤◌, ◌&&◌, true, false, leb, length, MatchOption};
ghost use Rattle.texts.specs.Lines.{same};
ghost use Rattle.asc.specs.Spelling.{tile_line, line_x, line_y, is_tile_line, is_row};

use crate::text::put_tile_line;
use ports::lengths::COLUMNS;
use texts::decimal::number;
use texts::lines::word_length;

// How far behind the first byte the coordinates of a tile begin.
const BEHIND: usize = 12;

// The first coordinate of a tile's line; of any other line some number.
fn line_x(line: &[u8]) -> u32
    requires { 12 ≤ length line.now }
    ensures { result ≡ line_x line.now }
{
    let rest = &line[BEHIND..];
    let n = word_length(rest);
    number(&rest[..n])
}

// The second one.
fn line_y(line: &[u8]) -> u32
    requires { 12 ≤ length line.now }
    ensures { result ≡ line_y line.now }
{
    let rest = &line[BEHIND..];
    let n = word_length(rest);
    if n < rest.len() {
        number(&rest[n + 1..])
    } else {
        256
    }
}

// The line is that of the tile at x, y: it is spelt anew and compared.
// Rules out: a leading zero; a coordinate above 255; two spaces; anything behind the second number.
fn is_spelt(line: &[u8], x: u32, y: u32) -> bool
    ensures { result ≡ (leb x 255 && (leb y 255 && same line.now (tile_line x y))) }
{
    if x > 255 || y > 255 {
        return false;
    }
    let mut spelt = [0; 20];
    let n = put_tile_line(&mut spelt, 0, x, y);
    line == &spelt[..n]
}

// The coordinates of a tile's line.
#[tactic(auto, using(crate::proofs::TurnLaws::short_line, crate::proofs::TurnLaws::tile_test))]
pub fn tile_of(line: &[u8]) -> Option<(u32, u32)>
    ensures { MatchOption result (is_tile_line line.now ≡ false)
        (λ p. (is_tile_line line.now ≡ true) × (p.0 ≡ line_x line.now) × (p.1 ≡ line_y line.now)) }
{
    if line.len() < BEHIND {
        return None;
    }
    let x = line_x(line);
    let y = line_y(line);
    is_spelt(line, x, y).then_some((x, y))
}

// Rules out: a digit above 1; one digit more or less.
pub fn is_row(line: &[u8]) -> bool
    ensures { result ≡ is_row line.now }
{
    line.len() == COLUMNS && line.iter().all(|c| matches!(c, b'0' | b'1'))
}
