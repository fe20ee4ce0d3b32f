// The lines of a file, one after another, into rooms for the marks of the tiles and for the digits.
ghost use Rattle.std.specs.Prelude.{◌≡◌, ◌*◌, ◌&&◌, eqb, length, get_or};
ghost use Rattle.lists.specs.Search.{all_from};
ghost use Rattle.ports.specs.Lengths.{positions};
ghost use Rattle.asc.specs.Area.{tiles_of};
ghost use Rattle.asc.specs.Site.{area_of};
ghost use Rattle.asc.specs.Meaning.{ScanSays};

use crate::area::Site;
use crate::turn::{Scan, turn};
use texts::lines::line_end;

// Every tile was given.
fn all_given(given: &[u8]) -> bool
    ensures { result ≡ all_from (λ t. eqb (get_or given.now t 0) 1) 0 (length given.now) }
{
    given.iter().all(|mark| *mark == 1)
}

// Nothing is missing.
fn is_whole(s: Scan, given: &[u8]) -> bool
    ensures { result ≡ (s.device && (eqb s.left 0 && all_from (λ t. eqb (get_or given.now t 0) 1) 0 (length given.now))) }
{
    s.device && s.left == 0 && all_given(given)
}

// Goes through the lines of a text: all is there, or so many lines are in order and no more.
// Rules out: a last line without its line feed; an end of the text where rows are due.
pub fn scan(site: Site, text: &[u8], given: &mut [u8], content: &mut [u8]) -> Result<(), usize>
    requires { (length given.old ≡ tiles_of (area_of site)) × (length content.old ≡ positions * tiles_of (area_of site)) }
    ensures { ScanSays (area_of site) text.now result content.new }
{
    given.fill(0);
    content.fill(0);
    let mut s = Scan::default();
    let mut at = 0;
    let mut n = 0;
    // no counted index: a line ends where its line feed is
    while at < text.len() {
        let end = line_end(text, at);
        if end == text.len() {
            return Err(n);
        }
        s = turn(site, &text[at..end], s, given, content).ok_or(n)?;
        at = end + 1;
        n += 1;
    }
    if is_whole(s, given) { Ok(()) } else { Err(n) }
}
