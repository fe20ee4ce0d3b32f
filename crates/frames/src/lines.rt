// Whether the line that begins at a position is a frame of a given kind. A frame's number of digits is known from its counts, so there is no
// search for a line end, and a line of any length is answered.
ghost use Rattle.std.specs.Prelude.{◌≡◌, ◌+◌, ◌*◌, ◌^◌, ◌<◌, ◌≤◌, length};
ghost use Rattle.frames.specs.Lines.{digits_at, is_line, fields_line, passive_count, passive_line, position_count, entry_count, group_digits, group_line, size_digits, east_at, size_line, tile_line};

use texts::hex::{is_digit, pair};
use texts::{LINE_END, byte_at};

// How many digits the frames of fixed length have.
const FIELDS_DIGITS: usize = 14;

const TILE_DIGITS: usize = 218;

// So many digits stand from a position on.
fn digits_at(s: &[u8], at: usize, n: usize) -> bool
    requires { (at < 2 ^ 31) × (n < 2 ^ 31) }
    ensures { result ≡ digits_at s.now at n }
{
    (0..n).all(|k| is_digit(byte_at(s, at + k)))
}

// The frame's number, n digits with it, and the line end.
// Rules out: a line that is not ended; one digit more or less; lower case.
#[tactic(auto, unfolding(crate::specs::Lines::is_line))]
fn is_line(s: &[u8], at: usize, kind: u16, n: usize) -> bool
    requires { (at < 2 ^ 31) × (n < 2 ^ 31) }
    ensures { result ≡ is_line s.now at kind n }
{
    pair(s, at) == kind && byte_at(s, at + n) == LINE_END && digits_at(s, at, n)
}

pub fn fields_line(s: &[u8]) -> bool
    ensures { result ≡ fields_line s.now }
{
    is_line(s, 0, 1, FIELDS_DIGITS)
}

pub fn passive_count(s: &[u8]) -> usize
    ensures { result ≡ passive_count s.now }
{
    usize::from(pair(s, 17))
}

#[tactic(auto, unfolding(crate::specs::Lines::passive_line))]
pub fn passive_line(s: &[u8]) -> bool
    ensures { result ≡ passive_line s.now }
{
    let count = passive_count(s);
    count <= 64 && is_line(s, 15, 2, 4 + 4 * count)
}

pub fn position_count(s: &[u8], at: usize) -> usize
    requires { at < 2 ^ 30 }
    ensures { result ≡ position_count s.now at }
{
    usize::from(pair(s, at + 6))
}

#[tactic(auto, using(crate::proofs::BoundLaws::bounds))]
pub fn entry_count(s: &[u8], at: usize) -> usize
    requires { at < 2 ^ 30 }
    ensures { result ≡ entry_count s.now at }
{
    let positions = position_count(s, at);
    usize::from(pair(s, at + 8 + 4 * positions))
}

// How many digits a group's frame has.
#[tactic(auto, using(crate::proofs::BoundLaws::bounds), unfolding(crate::specs::Lines::group_digits))]
pub fn group_digits(s: &[u8], at: usize) -> usize
    requires { at < 2 ^ 30 }
    ensures { result ≡ group_digits s.now at }
{
    10 + 4 * position_count(s, at) + 6 * entry_count(s, at)
}

#[tactic(auto, using(crate::proofs::BoundLaws::bounds), unfolding(crate::specs::Lines::group_line))]
pub fn group_line(s: &[u8], at: usize) -> bool
    requires { at < 2 ^ 30 }
    ensures { result ≡ group_line s.now at }
{
    position_count(s, at) <= 8 && entry_count(s, at) <= 32 && is_line(s, at, 3, group_digits(s, at))
}

// How many digits the block frame has: the byte for the east column may be left out.
#[tactic(auto, unfolding(crate::specs::Lines::size_digits))]
pub fn size_digits(s: &[u8], at: usize) -> usize
    requires { at < 2 ^ 30 }
    ensures { result ≡ size_digits s.now at }
{
    if byte_at(s, at + 6) == LINE_END { 6 } else { 8 }
}

// That byte, 0 where it is left out.
#[tactic(auto, unfolding(crate::specs::Lines::east_at))]
pub fn east(s: &[u8], at: usize) -> u16
    requires { at < 2 ^ 30 }
    ensures { result ≡ east_at s.now at }
{
    if byte_at(s, at + 6) == LINE_END {
        0
    } else {
        pair(s, at + 6)
    }
}

// Rules out: a byte that is neither 00 nor 01; a second one.
#[tactic(auto, using(crate::proofs::BoundLaws::bounds), unfolding(crate::specs::Lines::size_line))]
pub fn size_line(s: &[u8], at: usize) -> bool
    requires { at < 2 ^ 30 }
    ensures { result ≡ size_line s.now at }
{
    east(s, at) <= 1 && is_line(s, at, 4, size_digits(s, at))
}

pub fn tile_line(s: &[u8], at: usize) -> bool
    requires { at < 2 ^ 30 }
    ensures { result ≡ tile_line s.now at }
{
    is_line(s, at, 5, TILE_DIGITS)
}
