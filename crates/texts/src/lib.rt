// Bytes of text, as frames and reports and files of lines have them: a byte at a position, a piece put in at one, hexadecimal
// digits (`hex`), decimal numbers (`decimal`), lines and words (`lines`).
// The theory that readers and writers of lines cite is in specs/ and proofs/: what stands from one position to another, pieces put one behind
// the other. Nothing here knows what a line means.
#![tactic(auto)]

ghost use Rattle.std.specs.Prelude.{◌≡◌, ◌+◌, ◌≤◌, length, get_or};
ghost use Rattle.texts.specs.Pieces.{placed};

pub mod decimal;
pub mod hex;
pub mod lines;

// "every line ended": a line feed
pub const LINE_END: u8 = 10;

// Byte i, or 0 past the end, which is neither a digit nor a line end.
pub fn byte_at(s: &[u8], i: usize) -> u8
    ensures { result ≡ get_or s.now i 0 }
{
    s.get(i).copied().unwrap_or(0)
}

// Puts a piece at a position, and says where the next one goes.
pub fn put(out: &mut [u8], at: usize, piece: &[u8]) -> usize
    requires { at + length piece.now ≤ length out.old }
    ensures next { result ≡ at + length piece.now }
    ensures out { out.new ≡ placed at piece.now out.old }
{
    let end = at + piece.len();
    out[at..end].copy_from_slice(piece);
    end
}
