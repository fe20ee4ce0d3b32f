// The lines 06 and 07 of an accepted block, put one behind the other.
ghost use Rattle.std.specs.Prelude.{◌≡◌, ◌+◌, ◌*◌, ◌/◌, ◌^◌, ◌<◌, ◌≤◌, ◌&&◌, eqb, length};
ghost use Rattle.routing.specs.LogicTile.{logic_tile};
ghost use Rattle.ports.specs.Lengths.{settings_length};
ghost use Rattle.equations.specs.Tiles.{table_of, flags_at};
ghost use Rattle.texts.specs.Pieces.{placed};
ghost use Rattle.lines.specs.Listing.{switch_part, switch_lines, cell_part, cell_lines};

use crate::text::{cell_line, switch_line};
use codec::cells::CELLS_FROM;
use ports::lengths::SETTINGS_LENGTH;
use texts::put;

// The line of wire w, if a switch ends on it.
fn put_switch(sources: &[u16], w: usize, out: &mut [u8], at: usize) -> usize
    requires { (w < length sources.now) × (w < 2 ^ 16) × (at + 11 ≤ length out.old) }
    ensures next { result ≡ at + length (switch_part sources.now w) }
    ensures out { out.new ≡ placed at (switch_part sources.now w) out.old }
{
    match sources[w] {
        0 => at,
        source => put(out, at, &switch_line(w as u16, source - 1)),
    }
}

// The lines 06, from the map of sources.
pub fn put_switches(sources: &[u16], out: &mut [u8], at: usize) -> usize
    requires { (length sources.now ≤ 2 ^ 16) × (at + 11 * length sources.now ≤ length out.old) }
    ensures next { result ≡ at + length (switch_lines sources.now (length sources.now)) }
    ensures out { out.new ≡ placed at (switch_lines sources.now (length sources.now)) out.old }
{
    let mut next = at;
    for w in 0..sources.len() {
        next = put_switch(sources, w, out, next);
    }
    next
}

// "not all zero", turned round.
fn is_blank(table: u16, flags: u16) -> bool
    ensures { result ≡ eqb table 0 && eqb flags 0 }
{
    table == 0 && flags == 0
}

// The line of cell c of a block, if it is not all zero.
fn put_cell(st: &[u16], c: usize, out: &mut [u8], at: usize) -> usize
    requires { (settings_length * (c / 8) + settings_length ≤ length st.now) × (c < 2 ^ 9) × (at + 13 ≤ length out.old) }
    ensures next { result ≡ at + length (cell_part st.now c) }
    ensures out { out.new ≡ placed at (cell_part st.now c) out.old }
{
    let tile = c / 8;
    let i = c % 8;
    let from = SETTINGS_LENGTH * tile;
    let table = st[from + (CELLS_FROM + 2 * i)];
    let flags = st[from + (CELLS_FROM + 2 * i + 1)];
    if is_blank(table, flags) {
        at
    } else {
        put(out, at, &cell_line(tile as u16, i as u16, table, flags))
    }
}

// The lines 07 of n tiles.
pub fn put_cells(st: &[u16], n: usize, out: &mut [u8], at: usize) -> usize
    requires { (n ≤ 64) × (length st.now ≡ settings_length * n) × (at + 13 * (8 * n) ≤ length out.old) }
    ensures next { result ≡ at + length (cell_lines st.now n) }
    ensures out { out.new ≡ placed at (cell_lines st.now n) out.old }
{
    let mut next = at;
    for c in 0..8 * n {
        next = put_cell(st, c, out, next);
    }
    next
}
