// A set of numbers below 65,536 whose lowest member is found at once: binary digits in words of 64, and two levels of words above that say which words
// are not 0. Nothing here knows what the numbers stand for.
#![tactic(auto)]

ghost use Rattle.std.specs.Prelude.{◌≡◌, true, false, ◌≢◌, ℕ, ◌<◌};
ghost use Rattle.lists.specs.Search.{first, below};
ghost use Rattle.bitset.specs.Bitset.{Bitset as IsBitset, DigitWritten, has, word_digits, word_count, numbers};

use std::marker::Model;

// How many words a set has.
pub const WORDS: usize = 1089;

// Members are below this.
pub const NUMBERS: usize = 65536;

// How many digits a word has.
const DIGITS: usize = 64;

// The first word with members.
const LEAVES: usize = 65;

// Digit k of word i becomes 1.
fn raise(words: &mut [u64; WORDS], i: usize, k: usize)
    requires { (i < word_count) × (k < word_digits) }
    ensures { DigitWritten words.old words.new i k 1 }
{
    words[i] |= 1 << k;
}

// Digit k of word i becomes 0.
fn lower(words: &mut [u64; WORDS], i: usize, k: usize)
    requires { (i < word_count) × (k < word_digits) }
    ensures { DigitWritten words.old words.new i k 0 }
{
    words[i] = digits::without_digit(words[i], k);
}

// Each function on words asks for the words of a set (`Bitset`, here `IsBitset`) and leaves such.

// The set with no member.
pub fn empty() -> [u64; WORDS]
    ensures kept { IsBitset result }
    ensures none { (m : ℕ) → has result m ≡ false }
{
    [0; WORDS]
}

// n becomes a member.
// Rules out: touching another number; a member that lowest does not see.
pub fn insert(words: &mut [u64; WORDS], n: usize)
    requires { IsBitset words.old × (n < numbers) }
    ensures kept { IsBitset words.new }
    ensures here { has words.new n ≡ true }
    ensures others { (m : ℕ) → m ≢ n → has words.new m ≡ has words.old m }
{
    let u = n / DIGITS;
    let v = u / DIGITS;
    raise(words, LEAVES + u, n % DIGITS);
    raise(words, 1 + v, u % DIGITS);
    raise(words, 0, v);
}

// n is no member any more. It need not have been one.
// Rules out: touching another number; leading lowest to a word that has become 0.
pub fn remove(words: &mut [u64; WORDS], n: usize)
    requires { IsBitset words.old × (n < numbers) }
    ensures kept { IsBitset words.new }
    ensures here { has words.new n ≡ false }
    ensures others { (m : ℕ) → m ≢ n → has words.new m ≡ has words.old m }
{
    let u = n / DIGITS;
    lower(words, LEAVES + u, n % DIGITS);
    if words[LEAVES + u] != 0 {
        return;
    }
    let v = u / DIGITS;
    lower(words, 1 + v, u % DIGITS);
    if words[1 + v] != 0 {
        return;
    }
    lower(words, 0, v);
}

// The lowest member; where there is none, NUMBERS.
// Rules out: a higher member; a number that is none.
pub fn lowest(words: &[u64; WORDS]) -> usize
    requires { IsBitset words.now }
    ensures { result ≡ first (has words.now) 0 numbers }
{
    let top = words[0];
    if top == 0 {
        return NUMBERS;
    }
    let v = digits::lowest_digit(top);
    let u = DIGITS * v + digits::lowest_digit(words[1 + v]);
    DIGITS * u + digits::lowest_digit(words[LEAVES + u])
}

// A set of numbers below 65,536, whose words are always such: what the functions above ask and promise of them is its invariant.
#[derive(Clone, Copy)]
pub struct Bitset {
    words: [u64; WORDS],
}

// A clause sees the words, and asks of them which numbers are members (`has`). The words are all that a set is, so a set can be copied.
impl Model for Bitset {
    ghost use Rattle.std.specs.Prelude.{List, ℕ};
    ghost use Rattle.bitset.specs.Bitset.{Bitset};

    ghost Value = { List ℕ };

    ghost view = { λ s. s.words };

    ghost inverse = { λ words. record { words = words } };

    ghost invariant = { λ s. Bitset s.words };
}

impl Bitset {
    // The set with no member.
    pub fn new() -> Self
        ensures { (m : ℕ) → has result m ≡ false }
    {
        Bitset { words: empty() }
    }

    // n becomes a member.
    // Rules out: touching another number; a member that lowest does not see.
    pub fn insert(&mut self, n: usize)
        requires { n < numbers }
        ensures here { has self.new n ≡ true }
        ensures others { (m : ℕ) → m ≢ n → has self.new m ≡ has self.old m }
    {
        insert(&mut self.words, n);
    }

    // n is no member any more. It need not have been one.
    // Rules out: touching another number; leading lowest to a word that has become 0.
    pub fn remove(&mut self, n: usize)
        requires { n < numbers }
        ensures here { has self.new n ≡ false }
        ensures others { (m : ℕ) → m ≢ n → has self.new m ≡ has self.old m }
    {
        remove(&mut self.words, n);
    }

    // The lowest member.
    // Rules out: a higher member; a number that is none.
    pub fn lowest(&self) -> Option<usize>
        ensures { result ≡ below numbers (first (has self.now) 0 numbers) }
    {
        let n = lowest(&self.words);
        if n < NUMBERS { Some(n) } else { None }
    }
}
