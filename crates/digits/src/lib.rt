// Binary digits: reading one, writing one, and going through the set ones, in a word of 64. The theory that shifts, masks and patterns rest on is in
// specs/ and proofs/. Nothing here knows of tiles.
#![tactic(auto)]

ghost use Rattle.std.specs.Prelude.{◌≡◌, ◌≢◌, ◌<◌};
ghost use Rattle.digits.specs.Digits.{digit, set_digit, LowestDigit};

// Digit k of a word.
pub fn digit_of(word: u64, k: usize) -> u8
    requires { k < 64 }
    ensures { result ≡ digit word k }
{
    ((word >> k) & 1) as u8
}

// A word with `value` for its digit k.
pub fn with_digit(word: u64, k: usize, value: u8) -> u64
    requires { (k < 64) × (value < 2) }
    ensures { result ≡ set_digit word k value }
{
    let old = (word >> k) & 1;
    word - (old << k) + (u64::from(value) << k)
}

// The lowest digit that is set, in a word that has one.
// Rules out: another set digit, as the highest.
pub fn lowest_digit(word: u64) -> usize
    requires { word ≢ 0 }
    ensures { LowestDigit 64 word result }
{
    word.trailing_zeros() as usize
}

// A word with 0 for its digit k.
pub fn without_digit(word: u64, k: usize) -> u64
    requires { k < 64 }
    ensures { result ≡ set_digit word k 0 }
{
    word & !(1 << k)
}
