// Copying a slice of numbers. The theory that every crate's loops cite is in specs/ and proofs/: searches by a test, counts, lists given by a
// function, lists in equal parts, listings, and how std's words for these are ours. Nothing here knows of tiles.
#![tactic(auto)]

ghost use Rattle.std.specs.Prelude.{◌≡◌, length};

// The same numbers in a slice of the same length. A loop, and not std's copy_from_slice: for slices that may overlap that is a call of memmove, which
// whoever links the archive for C would then have to bring.
// Rules out: leaving the last number as it was.
pub fn copy(from: &[u16], to: &mut [u16])
    requires { length from.now ≡ length to.old }
    ensures { to.new ≡ from.now }
{
    for (i, number) in to.iter_mut().enumerate() {
        *number = from[i];
    }
}
