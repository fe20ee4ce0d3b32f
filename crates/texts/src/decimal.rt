// Decimal numbers of one to three digits, without leading zeros.
ghost use Rattle.std.specs.Prelude.{◌≡◌, ◌+◌, ◌-◌, ◌%◌, ◌<◌, ◌≤◌, length};
ghost use Rattle.texts.specs.Decimal.{decimal, number};
ghost use Rattle.texts.specs.Pieces.{placed};

use crate::put;

// What a byte stands for, if it is a digit.
fn value(c: u8) -> u32
    ensures digit { result ≡ c - 48 }
    ensures small { result < 256 }
{
    u32::from(c.saturating_sub(b'0'))
}

// What one, two or three digits stand for; of any other text some number.
#[tactic(auto, unfolding(crate::specs::Decimal::number, crate::specs::Decimal::digit_at))]
pub fn number(s: &[u8]) -> u32
    ensures { result ≡ number s.now }
{
    match s {
        [a] => value(*a),
        [a, b] => 10 * value(*a) + value(*b),
        [a, b, c] => 100 * value(*a) + 10 * value(*b) + value(*c),
        _ => 256,
    }
}

// How many digits a number has.
#[tactic(auto, unfolding(crate::specs::Decimal::decimal))]
pub fn decimal_length(n: u32) -> usize
    ensures { result ≡ length (decimal n) }
{
    match n {
        0..10 => 1,
        10..100 => 2,
        _ => 3,
    }
}

// The last digit of a number.
fn figure(n: u32) -> u8
    ensures { result ≡ 48 + n % 10 }
{
    b'0' + (n % 10) as u8
}

// Puts a number in decimal, and says where the next piece goes.
// Rules out: a leading zero.
#[tactic(auto, unfolding(crate::specs::Decimal::decimal))]
pub fn put_decimal(out: &mut [u8], at: usize, n: u32) -> usize
    requires { (n < 256) × (at + length (decimal n) ≤ length out.old) }
    ensures next { result ≡ at + length (decimal n) }
    ensures out { out.new ≡ placed at (decimal n) out.old }
{
    match n {
        0..10 => put(out, at, &[figure(n)]),
        10..100 => put(out, at, &[figure(n / 10), figure(n)]),
        _ => put(out, at, &[figure(n / 100), figure(n / 10), figure(n)]),
    }
}
