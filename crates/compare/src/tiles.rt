// The differences of one tile, fields, groups, cells, passive bits: how many, and their rows.
ghost use Rattle.std.specs.Prelude.{◌≡◌, ◌+◌, ◌*◌, ◌≤◌, length};
ghost use Rattle.std.proofs.lemmas.List.Edits.{sets};
ghost use Rattle.lists.specs.Search.{count_below};
ghost use Rattle.lists.specs.Listing.{rows_where};
ghost use Rattle.ports.specs.Lengths.{settings_length};
ghost use Rattle.compare.specs.Places.{row_length, places_per_tile, differ_at, row_at};

use crate::cells::{count_cells, list_cells};
use crate::settings::{Kind, count_changed, list_changed};
use codec::cells::{CELLS_FROM, cells_of};
use codec::settings::{GROUPS_FROM, PASSIVES_FROM};
use std::ops::Range;

// Where the settings of a kind stand, but for the cells.
const FIELDS: Range<usize> = 0..PASSIVES_FROM;

const PASSIVES: Range<usize> = PASSIVES_FROM..GROUPS_FROM;

const GROUPS: Range<usize> = GROUPS_FROM..CELLS_FROM;

// How many differences two tiles have.
pub fn count_tile(old: &[u16], new: &[u16]) -> usize
    requires { (length old.now ≡ settings_length) × (length new.now ≡ settings_length) }
    ensures { result ≡ count_below (differ_at old.now new.now) places_per_tile }
{
    let fields = count_changed(&old[FIELDS], &new[FIELDS]);
    let groups = count_changed(&old[GROUPS], &new[GROUPS]);
    let olds = cells_of(old);
    let news = cells_of(new);
    let cells = count_cells(olds, news);
    let passives = count_changed(&old[PASSIVES], &new[PASSIVES]);
    fields + groups + cells + passives
}

// The rows of a tile, put in from `from` on; the answer is where they end.
pub fn list_tile(old: &[u16], new: &[u16], tile: u32, list: &mut [u32], from: usize) -> usize
    requires { (length old.now ≡ settings_length) × (length new.now ≡ settings_length) ×
        (from + row_length * count_below (differ_at old.now new.now) places_per_tile ≤ length list.old) }
    ensures end { result ≡ from + row_length * count_below (differ_at old.now new.now) places_per_tile }
    ensures list { list.new ≡ sets list.old from
        (rows_where (differ_at old.now new.now) (row_at tile old.now new.now) places_per_tile) }
{
    let groups = list_changed(&old[FIELDS], &new[FIELDS], tile, Kind::Field, list, from);
    let cells = list_changed(&old[GROUPS], &new[GROUPS], tile, Kind::Group, list, groups);
    let olds = cells_of(old);
    let news = cells_of(new);
    let passives = list_cells(olds, news, tile, list, cells);
    list_changed(
        &old[PASSIVES],
        &new[PASSIVES],
        tile,
        Kind::Passive,
        list,
        passives,
    )
}
