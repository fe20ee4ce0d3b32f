// The differences of two blocks of one size, tile by tile, and the grounds that look at table and bits. The table is checked once for both.
ghost use Rattle.refusal.specs.Grounds.{answer_number};
ghost use Rattle.std.specs.Prelude.{◌≡◌, ◌*◌, ◌≤◌, length};
ghost use Rattle.std.proofs.lemmas.List.Edits.{sets};
ghost use Rattle.refusal.specs.Memory.{output};
ghost use Rattle.ports.specs.Block.{Allowed};
ghost use Rattle.ports.specs.Lengths.{settings_length};
ghost use Rattle.config.specs.Blocks.{tiles_of};
ghost use Rattle.compare.specs.Places.{row_length};
ghost use Rattle.compare.specs.Rows.{difference_count, differences};
ghost use Rattle.compare.specs.Lengths.{compare_lent, CompareLong};
ghost use Rattle.compare.specs.Entry.{rows_answer, rows_list, bits_answer, compared_list};

use crate::settings::ROW_LENGTH;
use crate::tiles::{count_tile, list_tile};
use config::blocks::read_block;
use ports::lengths::{POSITIONS, SETTINGS_LENGTH};
use ports::size::Size;
use refusal::Refusal;
use routing::rules::check_table;

// How many differences n tiles have.
fn count_block(before: &[u16], after: &[u16], n: usize) -> usize
    requires { (n ≤ 64) × (length before.now ≡ settings_length * n) × (length after.now ≡ settings_length * n) }
    ensures { result ≡ difference_count before.now after.now n }
{
    let mut c = 0;
    for t in 0..n {
        let start = SETTINGS_LENGTH * t;
        let end = start + SETTINGS_LENGTH;
        c += count_tile(&before[start..end], &after[start..end]);
    }
    c
}

// Their rows, put in from the list's front on; the answer is where they end.
fn list_block(before: &[u16], after: &[u16], n: usize, list: &mut [u32]) -> usize
    requires { (n ≤ 64) × (length before.now ≡ settings_length * n) × (length after.now ≡ settings_length * n) ×
        (row_length * difference_count before.now after.now n ≤ length list.old) }
    ensures end { result ≡ row_length * difference_count before.now after.now n }
    ensures list { list.new ≡ sets list.old 0 (differences before.now after.now n) }
{
    let mut at = 0;
    for t in 0..n {
        let start = SETTINGS_LENGTH * t;
        let end = start + SETTINGS_LENGTH;
        at = list_tile(&before[start..end], &after[start..end], t as u32, list, at);
    }
    at
}

// Ground 15 of settings that were read, and the list, whose rest is zeroed.
fn list_settings(before: &[u16], after: &[u16], n: usize, list: &mut [u32]) -> Result<u32, Refusal>
    requires { (n ≤ 64) × (length before.now ≡ settings_length * n) × (length after.now ≡ settings_length * n) }
    ensures answer { result ≡ rows_answer before.now after.now n (length list.old) }
    ensures list { list.new ≡ output (answer_number result) list.old
        (rows_list before.now after.now n (length list.old)) }
{
    let len = list.len();
    let rows = count_block(before, after, n);
    if len < ROW_LENGTH * rows {
        return Err(Refusal::ListTooShort(rows as u32));
    }
    let end = list_block(before, after, n, list);
    list[end..].fill(0);
    Ok(rows as u32)
}

// Grounds 3, 4 and 15 of two blocks whose sizes and lengths are exact, and the list.
pub fn compare_bits(
    s: Size,
    table: &[u16],
    first: &[u64],
    second: &[u64],
    list: &mut [u32],
    before: &mut [u16],
    after: &mut [u16],
) -> Result<u32, Refusal>
    requires allowed { Allowed s }
    requires compare_long { CompareLong s (compare_lent table.now first.now second.now before.old after.old) }
    ensures answer { result ≡ bits_answer s table.now (tiles_of first.now) (tiles_of second.now)
        (length list.old) }
    ensures list { list.new ≡ output (answer_number result) list.old
        (compared_list s table.now (tiles_of first.now) (tiles_of second.now) (length list.old)) }
{
    let n = (s.h * s.w) as usize;
    let mut own = [0u16; POSITIONS];
    if let Some(part) = check_table(table, &mut own) {
        return Err(Refusal::Table(part as u32));
    }
    if let Some(place) = read_block(table, &own, first, before, n) {
        return Err(Refusal::Undecodable(place as u32));
    }
    if let Some(place) = read_block(table, &own, second, after, n) {
        return Err(Refusal::Undecodable(place as u32));
    }
    list_settings(before, after, n, list)
}
