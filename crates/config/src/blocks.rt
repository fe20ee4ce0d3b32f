// A block tile by tile, each in its own part of the lent slices. These functions assume a table that keeps the rules.
ghost use Rattle.std.specs.Prelude.{Some, None, ◌≡◌, ℕ, ◌*◌, ◌<◌, ◌≤◌, true, length};
ghost use Rattle.lists.specs.Search.{below};
ghost use Rattle.lists.specs.Tables.{zeros};
ghost use Rattle.routing.specs.LogicTile.{logic_tile};
ghost use Rattle.routing.specs.Rules.{TableRules};
ghost use Rattle.routing.specs.Slots.{slot_count};
ghost use Rattle.routing.specs.Claiming.{TableOwned};
ghost use Rattle.ports.specs.Lengths.{tile_numbers, settings_length};
ghost use Rattle.codec.specs.Limits.{settings_fit};
ghost use Rattle.config.specs.Blocks.{settings_at, fault_place, decoded, bitless_tile, encoded, tiles_of};

use ports::lengths::{POSITIONS, SETTINGS_LENGTH, TILE_NUMBERS};

// The lowest position at fault of the lowest tile that cannot be decoded, as 864 times the tile plus the position, with cleared settings; where all n can,
// none, with their settings. A position at fault is looked for in one tile only, and after a no of it.
// Rules out: a place that names the tile alone; another place for building than for reading, for both call this.
pub fn read_block(
    table: &[u16],
    own: &[u16],
    bits: &[u64],
    settings: &mut [u16],
    n: usize,
) -> Option<usize>
    requires { (n ≤ 64) × TableRules logic_tile table.now × TableOwned logic_tile table.now (slot_count logic_tile) own.now ×
        (length bits.now ≡ tile_numbers * n) × (length settings.old ≡ settings_length * n) }
    ensures place { result ≡ below (logic_tile.positions * n) (fault_place table.now (tiles_of bits.now) n) }
    ensures settings { result ≡ None → settings.new ≡ decoded table.now (tiles_of bits.now) n }
    ensures cleared { (place : ℕ) → result ≡ Some place → settings.new ≡ zeros (settings_length * n) }
{
    for t in 0..n {
        let from = TILE_NUMBERS * t;
        let to = from + TILE_NUMBERS;
        let start = SETTINGS_LENGTH * t;
        let end = start + SETTINGS_LENGTH;
        let fault = tile::read_tile(table, own, &bits[from..to], &mut settings[start..end]);
        if fault < POSITIONS {
            settings.fill(0);
            return Some(POSITIONS * t + fault);
        }
    }
    None
}

// The settings of n tiles that can be decoded.
pub fn decode_block(table: &[u16], bits: &[u64], settings: &mut [u16], n: usize)
    requires { (n ≤ 64) × TableRules logic_tile table.now × (length bits.now ≡ tile_numbers * n) ×
        (length settings.old ≡ settings_length * n) }
    ensures { settings.new ≡ decoded table.now (tiles_of bits.now) n }
{
    for t in 0..n {
        let from = TILE_NUMBERS * t;
        let to = from + TILE_NUMBERS;
        let start = SETTINGS_LENGTH * t;
        let end = start + SETTINGS_LENGTH;
        tile::decode_tile(table, &bits[from..to], &mut settings[start..end]);
    }
}

// The lowest tile whose settings no bits have.
pub fn bitless_tile(table: &[u16], settings: &[u16], n: usize) -> Option<usize>
    requires { (n ≤ 64) × TableRules logic_tile table.now × (length settings.now ≡ settings_length * n) }
    ensures { result ≡ below n (bitless_tile table.now settings.now n) }
{
    let limits = codec::settings::limits(table);
    for t in 0..n {
        let start = SETTINGS_LENGTH * t;
        let end = start + SETTINGS_LENGTH;
        if !tile::settings_fit(&limits, &settings[start..end]) {
            return Some(t);
        }
    }
    None
}

// The bits of n tiles whose settings some bits have.
pub fn encode_block(table: &[u16], settings: &[u16], bits: &mut [u64], n: usize)
    requires { (n ≤ 64) × TableRules logic_tile table.now × (length settings.now ≡ settings_length * n) ×
        (length bits.old ≡ tile_numbers * n) × ((t : ℕ) → t < n → settings_fit table.now (settings_at settings.now t) ≡ true) }
    ensures { bits.new ≡ encoded table.now settings.now n }
{
    for t in 0..n {
        let start = SETTINGS_LENGTH * t;
        let end = start + SETTINGS_LENGTH;
        let from = TILE_NUMBERS * t;
        let to = from + TILE_NUMBERS;
        tile::encode_tile(table, &settings[start..end], &mut bits[from..to]);
    }
}
