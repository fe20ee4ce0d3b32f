// What the frames of an input say, written where the rest of the reader expects it: the routing table, and the tiles' bits.
ghost use Rattle.std.specs.Prelude.{◌≡◌, ℕ, ◌+◌, ◌*◌, ◌^◌, ◌<◌, ◌≤◌, length};
ghost use Rattle.lists.specs.Tables.{tabulate};
ghost use Rattle.lists.specs.Parts.{joined};
ghost use Rattle.ports.specs.Lengths.{tile_bytes, table_length};
ghost use Rattle.frames.specs.Input.{group_count};
ghost use Rattle.texts.specs.Hex.{pair_at};
ghost use Rattle.frames.specs.Contents.{head_number, group_number, entry_number, group_numbers, table_of, bits_of};

use crate::input::count_groups;
use crate::lines;
use ports::lengths::TILE_BYTES;
use texts::hex::{pair, quad};

const HEAD: usize = 69;

const GROUP: usize = 75;

// Number k of those before the groups; `count` is the group count.
#[tactic(auto, using(crate::proofs::BoundLaws::bounds), unfolding(crate::specs::Contents::head_number))]
fn head_number(s: &[u8], count: usize, k: usize) -> u16
    requires { (count ≡ group_count s.now) × (k < 69) }
    ensures { result ≡ head_number s.now k }
{
    let passives = lines::passive_count(s);
    match k {
        0..3 => quad(s, 2 + 4 * k),
        3 => passives as u16,
        4..68 if k - 4 < passives => quad(s, 19 + 4 * (k - 4)),
        4..68 => 0,
        _ => count as u16,
    }
}

fn fill_head(s: &[u8], count: usize, head: &mut [u16])
    requires { (count ≡ group_count s.now) × (length head.old ≡ 69) }
    ensures { head.new ≡ tabulate (head_number s.now) 0 69 }
{
    for (k, number) in head.iter_mut().enumerate() {
        *number = head_number(s, count, k);
    }
}

// Number e of a group's entries, patterns and sources in turn.
#[tactic(auto, unfolding(crate::specs::Contents::entry_number))]
fn entry_number(s: &[u8], at: usize, e: usize) -> u16
    requires { (at < 2 ^ 29) × (e < 64) }
    ensures { result ≡ entry_number s.now at e }
{
    let from = at + 6 * (e / 2);
    if e % 2 == 0 {
        pair(s, from)
    } else {
        quad(s, from + 2)
    }
}

// Number k of a group whose frame begins at a position.
#[tactic(auto, using(crate::proofs::BoundLaws::bounds), unfolding(crate::specs::Contents::group_number))]
fn group_number(s: &[u8], at: usize, k: usize) -> u16
    requires { (at < 2 ^ 28) × (k < 75) }
    ensures { result ≡ group_number s.now at k }
{
    let positions = lines::position_count(s, at);
    let entries = lines::entry_count(s, at);
    match k {
        0 => quad(s, at + 2),
        1 => positions as u16,
        2..10 if k - 2 < positions => quad(s, at + 8 + 4 * (k - 2)),
        2..10 => 0,
        10 => entries as u16,
        _ if (k - 11) / 2 < entries => entry_number(s, at + 10 + 4 * positions, k - 11),
        _ => 0,
    }
}

fn fill_group(s: &[u8], at: usize, group: &mut [u16])
    requires { (at < 2 ^ 28) × (length group.old ≡ 75) }
    ensures { group.new ≡ tabulate (group_number s.now at) 0 75 }
{
    for (k, number) in group.iter_mut().enumerate() {
        *number = group_number(s, at, k);
    }
}

#[tactic(auto, using(crate::proofs::BoundLaws::bounds, crate::proofs::FillLaws::filling_at_le))]
fn fill_groups(s: &[u8], count: usize, rest: &mut [u16])
    requires { (count ≡ group_count s.now) × (length rest.old ≡ 75 * 512) }
    ensures { rest.new ≡ joined (group_numbers s.now) 512 }
{
    let mut at = 20 + 4 * lines::passive_count(s);
    for g in 0..count {
        let from = GROUP * g;
        let to = from + GROUP;
        fill_group(s, at, &mut rest[from..to]);
        at += lines::group_digits(s, at) + 1;
    }
    rest[GROUP * count..].fill(0);
}

// The routing table of an input that was parsed.
pub fn fill_table(s: &[u8], table: &mut [u16])
    requires { length table.old ≡ table_length }
    ensures { table.new ≡ table_of s.now }
{
    let count = count_groups(s).count;
    fill_head(s, count, &mut table[..HEAD]);
    fill_groups(s, count, &mut table[HEAD..]);
}

#[tactic(auto, using(texts::proofs::HexLaws::pair_lt))]
fn fill_tile(s: &[u8], at: usize, tile: &mut [u8])
    requires { (at < 2 ^ 28) × (length tile.old ≡ tile_bytes) }
    ensures { tile.new ≡ tabulate (λ j. pair_at s.now (at + 2 + 2 * j)) 0 tile_bytes }
{
    for (j, byte) in tile.iter_mut().enumerate() {
        *byte = pair(s, at + 2 + 2 * j) as u8;
    }
}

// The bits of the n tiles of an input that was parsed.
#[tactic(auto, using(crate::proofs::BoundLaws::bounds))]
pub fn fill_bits(s: &[u8], n: usize, bits: &mut [u8])
    requires { (n ≤ 9) × (length bits.old ≡ tile_bytes * n) }
    ensures { bits.new ≡ bits_of s.now n }
{
    let found = count_groups(s);
    let start = found.end + lines::size_digits(s, found.end) + 1;
    for t in 0..n {
        let from = TILE_BYTES * t;
        let to = from + TILE_BYTES;
        fill_tile(s, start + 219 * t, &mut bits[from..to]);
    }
}
