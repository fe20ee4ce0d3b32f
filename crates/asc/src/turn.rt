// One line of a file: what it leads to.
ghost use Rattle.std.specs.Prelude.{◌≡◌, ℕ, ◌+◌, ◌-◌, ◌*◌, ◌<◌, ◌≤◌, true, List, length};
ghost use Rattle.ports.specs.Lengths.{columns};
ghost use Rattle.asc.specs.Area.{tiles_of};
ghost use Rattle.asc.specs.Site.{area_of};
ghost use Rattle.asc.specs.Next.{device_next, tile_next, dot_next, row_next, next_of, stage_of, turned_to};

use crate::area::Site;
use crate::lines;
use ports::lengths::{POSITIONS, ROWS};
use texts::lines::word_length;

const DEVICE: &[u8] = b".device";

const DEVICE_LINE: &[u8] = b".device 1k";

const LOGIC_TILE: &[u8] = b".logic_tile";

// How far a file has come, beside the marks of the tiles and the digits: whether .device was met, whether a section is being skipped, how many rows
// are due and where the next one goes.
#[derive(Clone, Copy, Default)]
pub struct Scan {
    pub device: bool,
    pub skipping: bool,
    pub left: usize,
    pub place: usize,
}

// A line where a row is due.
#[tactic(auto, using(crate::proofs::TurnLaws::row_of), unfolding(crate::specs::Next::row_next))]
fn row(line: &[u8], s: Scan, content: &mut [u8]) -> Option<Scan>
    requires { (0 < s.left) × (s.place + columns ≤ length content.old) }
    ensures { (g : List ℕ) → row_next s.device s.skipping (s.left - 1) s.place g content.old
        line.now ≡ turned_to result g content.new }
{
    if !lines::is_row(line) {
        return None;
    }
    let place = texts::put(content, s.place, line);
    Some(Scan {
        left: s.left - 1,
        place,
        ..s
    })
}

// The lines up to the next dot line are skipped.
fn skipping(s: Scan) -> Scan
    ensures { result ≡ record { device = s.device; skipping = true; left = 0; place = s.place } }
{
    Scan {
        skipping: true,
        left: 0,
        ..s
    }
}

// The line of the tile at tx, ty.
#[tactic(auto, unfolding(crate::specs::Next::tile_next))]
fn tile(site: Site, tx: u32, ty: u32, s: Scan, given: &mut [u8]) -> Option<Scan>
    requires { length given.old ≡ tiles_of (area_of site) }
    ensures { (c : List ℕ) → tile_next (area_of site) s.device s.skipping s.place given.old c tx ty ≡ turned_to result given.new c }
{
    let Some(t) = site.index(tx, ty) else {
        return Some(skipping(s));
    };
    if given[t] != 0 {
        return None;
    }
    given[t] = 1;
    Some(Scan {
        skipping: false,
        left: ROWS,
        place: POSITIONS * t,
        ..s
    })
}

// A line whose first word is .device.
#[tactic(auto, using(texts::proofs::SameLaws::same_eq), unfolding(crate::specs::Next::device_next))]
fn device(line: &[u8], s: Scan) -> Option<Scan>
    ensures { (g c : List ℕ) → device_next s.device s.place g c line.now ≡ turned_to result g c }
{
    if line == DEVICE_LINE && !s.device {
        Some(Scan {
            device: true,
            skipping: false,
            left: 0,
            ..s
        })
    } else {
        None
    }
}

// A line whose first byte is a dot, where a dot line may stand.
#[tactic(auto, using(texts::proofs::SameLaws::same_eq, texts::proofs::WordLaws::word_take, texts::proofs::WordLaws::word_is), unfolding(crate::specs::Next::dot_next))]
fn dot(site: Site, line: &[u8], s: Scan, given: &mut [u8]) -> Option<Scan>
    requires { length given.old ≡ tiles_of (area_of site) }
    ensures { (c : List ℕ) → dot_next (area_of site) s.device s.skipping s.place given.old c line.now ≡ turned_to result given.new c }
{
    let n = word_length(line);
    let word = &line[..n];
    if word == DEVICE {
        device(line, s)
    } else if word == LOGIC_TILE {
        let (tx, ty) = lines::tile_of(line)?;
        tile(site, tx, ty, s, given)
    } else {
        Some(skipping(s))
    }
}

// Any line. Empty ones are passed over.
#[tactic(auto, using(crate::proofs::StepLaws::next_empty, crate::proofs::StepLaws::next_row, crate::proofs::StepLaws::next_dot, crate::proofs::StepLaws::next_skip, crate::proofs::StepLaws::next_text))]
pub fn turn(site: Site, line: &[u8], s: Scan, given: &mut [u8], content: &mut [u8]) -> Option<Scan>
    requires { (length given.old ≡ tiles_of (area_of site)) × (s.place + columns * s.left ≤ length content.old) }
    ensures { next_of (area_of site) (stage_of s given.old content.old) line.now ≡ turned_to result given.new content.new }
{
    match line {
        [] => Some(s),
        _ if s.left > 0 => row(line, s, content),
        [b'.', ..] => dot(site, line, s, given),
        _ => s.skipping.then_some(s),
    }
}
