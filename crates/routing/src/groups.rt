// A group by itself: its destination, its counts and its entries (document 01, 'The routing table').
ghost use Rattle.std.specs.Prelude.{◌≡◌, true, ◌+◌, ◌<◌, ◌≤◌, length};
ghost use Rattle.lists.specs.Search.{all_from};
ghost use Rattle.routing.specs.LogicTile.{logic_tile};
ghost use Rattle.ports.specs.Lengths.{max_groups, max_entries, max_positions, table_length};
ghost use Rattle.routing.specs.Table.{width_of, entry_count};
ghost use Rattle.routing.specs.Marks.{Marked, MarkedBefore};
ghost use Rattle.routing.specs.TableCheck.{entry_ok, group_alone_ok};

use crate::ends::{is_destination, is_source};
use crate::table::{destination, entry_count, pattern, source, width};
use ports::lengths::{MAX_ENTRIES, MAX_POSITIONS};

// How many patterns eight positions have.
pub const PATTERN_COUNT: usize = 256;

// Entry e of group g, by itself and with the entries before it, whose patterns are those that are marked g + 1 in `seen`.
fn entry_ok(table: &[u16], g: usize, e: usize, seen: &mut [u16; PATTERN_COUNT]) -> bool
    requires { (length table.now ≡ table_length) × (g < max_groups) × (e < entry_count logic_tile table.now g) ×
        (width_of logic_tile table.now g ≤ max_positions) × (entry_count logic_tile table.now g ≤ max_entries) × Marked logic_tile
        table.now g e seen.old }
    ensures answer { result ≡ entry_ok logic_tile table.now g e }
    ensures seen { result ≡ true → Marked logic_tile table.now g (e + 1) seen.new }
{
    let v = pattern(table, g, e);
    let top: u16 = 1 << width(table, g);
    let i = usize::from(v);
    let mark = (g + 1) as u16;
    if v == 0 || top <= v || seen[i] == mark {
        return false;
    }
    seen[i] = mark;
    is_source(source(table, g, e))
}

// The n entries of group g, each by itself and with those before it.
fn entries_ok(table: &[u16], g: usize, n: usize, seen: &mut [u16; PATTERN_COUNT]) -> bool
    requires { (length table.now ≡ table_length) × (g < max_groups) × (n ≡ entry_count logic_tile table.now g) ×
        (width_of logic_tile table.now g ≤ max_positions) × (n ≤ max_entries) × MarkedBefore g seen.old }
    ensures answer { result ≡ all_from (entry_ok logic_tile table.now g) 0 n }
    ensures seen { result ≡ true → MarkedBefore (g + 1) seen.new }
{
    for e in 0..n {
        if !entry_ok(table, g, e, seen) {
            return false;
        }
    }
    true
}

// Group g by itself. A pattern of group g is marked g + 1 in `seen`. The groups before have left lower marks, so that nothing is cleared
// between groups, which would take a tenth of the time of reading a small block.
#[tactic(auto, unfolding(crate::specs::TableCheck::group_alone_ok))]
pub fn group_alone_ok(table: &[u16], g: usize, seen: &mut [u16; PATTERN_COUNT]) -> bool
    requires { (length table.now ≡ table_length) × (g < max_groups) × MarkedBefore g seen.old }
    ensures answer { result ≡ group_alone_ok logic_tile table.now g }
    ensures seen { result ≡ true → MarkedBefore (g + 1) seen.new }
{
    let w = width(table, g);
    let n = entry_count(table, g);
    is_destination(destination(table, g))
        && (1 <= w && w <= MAX_POSITIONS)
        && (1 <= n && n <= MAX_ENTRIES)
        && entries_ok(table, g, n, seen)
}
