// Both conversions, for n tiles.
ghost use Rattle.std.specs.Prelude.{◌≡◌, ◌*◌, ◌<◌, ◌≤◌, length, get_or};
ghost use Rattle.ports.specs.Lengths.{tile_bytes, tile_numbers};
ghost use Rattle.words.specs.Packed.{bit_in, number_from};
ghost use Rattle.words.specs.Forms.{byte_bits, words_of, bytes_of};

use crate::stray::PAST_COLUMNS;
use ports::lengths::{COLUMNS, TILE_BYTES, TILE_NUMBERS};

const BYTE: usize = 8;

// The 64 bits from byte `at` on, as one number; past the last byte they are 0.
fn eight_bytes(bytes: &[u8], at: usize) -> u64
    requires { at ≤ 65536 }
    ensures { result ≡ number_from 64 (bit_in byte_bits bytes.now) (at * byte_bits) }
{
    let mut eight: u64 = 0;
    for j in 0..BYTE {
        let byte = bytes.get(at + j).copied().unwrap_or(0);
        eight += u64::from(byte) << (BYTE * j);
    }
    eight
}

// The bytes of n tiles as words: a row has 54 bits, which eight bytes hold.
pub fn to_words(n: usize, bytes: &[u8], words: &mut [u64])
    requires { (n ≤ 64) × (length bytes.now ≡ tile_bytes * n) × (length words.old ≡ tile_numbers * n) }
    ensures { words.new ≡ words_of n bytes.now }
{
    for i in 0..TILE_NUMBERS * n {
        let p = COLUMNS * i;
        words[i] = (eight_bytes(bytes, p / BYTE) >> (p % BYTE)) % PAST_COLUMNS;
    }
}

// The words of n tiles as bytes: a byte's bits stand in one word or in two.
pub fn to_bytes(n: usize, words: &[u64], bytes: &mut [u8])
    requires { (n ≤ 64) × (length words.now ≡ tile_numbers * n) × (length bytes.old ≡ tile_bytes * n) }
    ensures { bytes.new ≡ bytes_of n words.now }
{
    for i in 0..TILE_BYTES * n {
        let p = BYTE * i;
        let row = p / COLUMNS;
        let next = words.get(row + 1).copied().unwrap_or(0);
        let low = (words[row] % PAST_COLUMNS) >> (p % COLUMNS);
        let high = (next % 256) << (COLUMNS - p % COLUMNS);
        bytes[i] = ((low + high) % 256) as u8;
    }
}
