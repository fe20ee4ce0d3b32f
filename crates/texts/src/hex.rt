// Upper-case hexadecimal digits, at a position of a slice of bytes.
ghost use Rattle.std.specs.Prelude.{◌≡◌, ◌+◌, ◌^◌, ◌<◌};
ghost use Rattle.texts.specs.Hex.{is_digit, value_of, digit_of, pair_at, quad_at};

use crate::byte_at;

// Rules out: lower case.
#[tactic(auto, unfolding(crate::specs::Hex::is_digit))]
pub fn is_digit(c: u8) -> bool
    ensures { result ≡ is_digit c }
{
    matches!(c, b'0'..=b'9' | b'A'..=b'F')
}

// What a digit stands for; 0 for any other byte.
#[tactic(auto, unfolding(crate::specs::Hex::value_of, crate::specs::Hex::is_digit))]
pub fn value(c: u8) -> u16
    ensures { result ≡ value_of c }
{
    match c {
        b'0'..=b'9' => u16::from(c - b'0'),
        b'A'..=b'F' => u16::from(c - b'A' + 10),
        _ => 0,
    }
}

// The lowest digit of a number.
#[tactic(auto, unfolding(crate::specs::Hex::digit_of))]
pub fn digit(x: u16) -> u8
    ensures { result ≡ digit_of x }
{
    let v = (x % 16) as u8;
    if v < 10 { b'0' + v } else { b'A' + (v - 10) }
}

// The number of two digits.
pub fn pair(s: &[u8], at: usize) -> u16
    requires { at < 2 ^ 32 }
    ensures { result ≡ pair_at s.now at }
{
    let high = value(byte_at(s, at));
    let low = value(byte_at(s, at + 1));
    16 * high + low
}

// The number of four digits.
pub fn quad(s: &[u8], at: usize) -> u16
    requires { at < 2 ^ 31 }
    ensures { result ≡ quad_at s.now at }
{
    let high = pair(s, at);
    let low = pair(s, at + 2);
    256 * high + low
}
