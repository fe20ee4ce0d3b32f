// Bits past a row's columns, which mean nothing (document 02, W7; ground 4).
ghost use Rattle.std.specs.Prelude.{◌≡◌, ◌<◌, length};
ghost use Rattle.words.specs.Stray.{first_stray, stray_place};

use ports::lengths::COLUMNS;

// The weight of the first digit past a row's columns.
pub const PAST_COLUMNS: u64 = 18014398509481984;

// The first word with a set bit past its columns; how many there are where none has one.
// Rules out: a stray bit let through; a later one.
pub fn first_stray(words: &[u64]) -> usize
    ensures { result ≡ first_stray words.now }
{
    words
        .iter()
        .position(|word| *word >= PAST_COLUMNS)
        .unwrap_or(words.len())
}

// The position that is at fault for word i of a block.
pub fn stray_place(i: usize) -> u32
    requires { i < 65536 }
    ensures { result ≡ stray_place i }
{
    (COLUMNS * i + COLUMNS - 1) as u32
}
