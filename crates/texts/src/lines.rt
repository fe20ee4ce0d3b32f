// Lines and words of a text: where a line ends, where its first word ends. Two texts are the same where `==` says so (proofs/SameLaws.antt: `same_eq`).
ghost use Rattle.std.specs.Prelude.{◌≡◌, ◌-◌, ◌≤◌, eqb, length, get_or};
ghost use Rattle.lists.specs.Search.{first};
ghost use Rattle.texts.specs.Lines.{word_length};

use crate::{LINE_END, byte_at};

// Where the line that begins at a position ends: the next line feed, or the end of the text.
pub fn line_end(text: &[u8], at: usize) -> usize
    requires { at ≤ length text.now }
    ensures { result ≡ first (λ k. eqb (get_or text.now k 0) 10) at (length text.now - at) }
{
    // a line that is empty: nothing is set up for it
    if byte_at(text, at) == LINE_END {
        return at;
    }
    let rest = &text[at..];
    // eight bytes a turn, while none of them is a line feed: most of a file is read here
    let passed = 8
        * rest
            .chunks_exact(8)
            .take_while(|eight| !eight.contains(&LINE_END))
            .count();
    let last = &rest[passed..];
    at + passed
        + last
            .iter()
            .position(|c| *c == LINE_END)
            .unwrap_or(last.len())
}

// How many bytes stand before the first space.
pub fn word_length(line: &[u8]) -> usize
    ensures { result ≡ word_length line.now }
{
    line.iter().position(|c| *c == b' ').unwrap_or(line.len())
}
