// An input of frames, line by line: the block's size, or the first line that is not as it should be.
ghost use Rattle.std.specs.Prelude.{Err, ◌≡◌, ℕ, ◌+◌, ◌*◌, ◌^◌, ◌<◌, ◌≤◌, length, not};
ghost use Rattle.lists.specs.Search.{below, first};
ghost use Rattle.refusal.specs.declared.Refusal.TheVariants.{Line};
ghost use Rattle.frames.specs.Lines.{east_at, tile_line};
ghost use Rattle.frames.specs.Input.{group_count, size_at, width, height, small, tiles_from, Opened, parsed};
ghost use Rattle.frames.specs.Meaning.{ParsedSays};

use crate::lines;
use ports::size::Block;
use refusal::Refusal;
use texts::hex::pair;

// How many groups stand in an input, and where the line behind them begins.
#[derive(Clone, Copy)]
pub struct Groups {
    pub count: usize,
    pub end: usize,
}

// "at most 512 groups"
const GROUPS: usize = 512;

// The frames 03 behind a good line 02.
#[tactic(auto, using(crate::proofs::BoundLaws::bounds, crate::proofs::InputLaws::counting_le))]
pub fn count_groups(s: &[u8]) -> Groups
    ensures count { result.count ≡ group_count s.now }
    ensures end { result.end ≡ size_at s.now }
{
    let mut end = 20 + 4 * lines::passive_count(s);
    for count in 0..GROUPS {
        if !lines::group_line(s, end) {
            return Groups { count, end };
        }
        end += lines::group_digits(s, end) + 1;
    }
    Groups { count: GROUPS, end }
}

fn is_small(n: u16) -> bool
    ensures { result ≡ small n }
{
    matches!(n, 1..=3)
}

// The first frame 05 that is missing, of n that are due from a position on.
fn missing_tile(s: &[u8], at: usize, n: usize) -> Option<usize>
    requires { (at < 2 ^ 29) × (n ≤ 9) }
    ensures { result ≡ below n (first (λ t. not (tile_line s.now (at + 219 * t))) 0 n) }
{
    (0..n).find(|t| !lines::tile_line(s, at + 219 * *t))
}

fn line(n: usize) -> Result<Block, Refusal>
    requires { n < 2 ^ 32 }
    ensures { result ≡ Err (Line n) }
{
    Err(Refusal::Line(n as u32))
}

// Behind a good block frame that has g groups before it, from a position on: the tiles that are due, and nothing more.
#[tactic(auto, using(crate::proofs::BoundLaws::bounds, crate::proofs::ParsedLaws::due_le))]
fn parse_tiles(s: &[u8], g: usize, from: usize, w: u16, h: u16, east: u16) -> Result<Block, Refusal>
    requires { Opened s.now × (g ≡ group_count s.now) × (from ≡ tiles_from s.now) × (w ≡ width s.now) × (h ≡ height s.now) ×
        (east ≡ east_at s.now (size_at s.now)) }
    ensures { result ≡ parsed s.now }
{
    let due = usize::from(h * w);
    if let Some(t) = missing_tile(s, from, due) {
        return line(4 + g + t);
    }
    if s.len() != from + 219 * due {
        return line(4 + g + due);
    }
    Ok(Block {
        w: u32::from(w),
        h: u32::from(h),
        east: u32::from(east),
    })
}

// Reads an input of frames. Grounds 11 and 1 as they are met.
// Rules out: passing over an empty line; a second block frame; a last line that is not ended; a tile too few or too many.
#[tactic(auto, using(crate::proofs::BoundLaws::bounds))]
pub fn parse(s: &[u8]) -> Result<Block, Refusal>
    ensures answer { result ≡ parsed s.now }
    ensures says { ParsedSays s.now result }
{
    if !lines::fields_line(s) {
        return line(1);
    }
    if !lines::passive_line(s) {
        return line(2);
    }
    let Groups { count: g, end: at } = count_groups(s);
    if !lines::size_line(s, at) {
        return line(3 + g);
    }
    let w = pair(s, at + 2);
    let h = pair(s, at + 4);
    if !is_small(w) || !is_small(h) {
        return Err(Refusal::WrongSize);
    }
    let from = at + lines::size_digits(s, at) + 1;
    parse_tiles(s, g, from, w, h, lines::east(s, at))
}
