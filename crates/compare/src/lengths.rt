// Ground 2: how long what is lent to `compare` is. The list's length is free.
ghost use Rattle.std.specs.Prelude.{◌≡◌};
ghost use Rattle.ports.specs.Block.{Allowed};
ghost use Rattle.compare.specs.Lengths.{compare_exact, part_exact};

use ports::lengths::{TABLE_LENGTH, bits_length, settings_total};
use ports::size::Size;

// The lengths of all that is lent to `compare`, but for the list.
#[derive(Clone, Copy, PartialEq, Eq)]
pub struct CompareLent {
    pub table: usize,
    pub first: usize,
    pub second: usize,
    pub before: usize,
    pub after: usize,
}

pub fn is_compare_exact(s: Size, lent: CompareLent) -> bool
    requires { Allowed s }
    ensures { result ≡ compare_exact s lent }
{
    let bits = bits_length(s);
    let settings = settings_total(s);
    lent == CompareLent {
        table: TABLE_LENGTH,
        first: bits,
        second: bits,
        before: settings,
        after: settings,
    }
}

// Both blocks have a number for every row of every tile.
pub fn is_part_exact(s: Size, first: usize, second: usize) -> bool
    requires { Allowed s }
    ensures { result ≡ part_exact s first second }
{
    let bits = bits_length(s);
    first == bits && second == bits
}
