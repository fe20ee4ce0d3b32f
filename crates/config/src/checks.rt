// The checks of the entry points, in their orders. They are given the length of an output and not the output, so they cannot write it.
ghost use Rattle.std.specs.Prelude.{◌≡◌, length, take, Ok, ◌≤◌, ◌*◌};
ghost use Rattle.ports.specs.Block.{Allowed, tile_count};
ghost use Rattle.ports.specs.Lengths.{table_length, settings_length};
ghost use Rattle.config.specs.Blocks.{room_length, decoded, tiles_of};
ghost use Rattle.config.specs.Entry.{lengths_ok, read_answer, write_answer, settings_answer};

use ports::lengths::{POSITIONS, TABLE_LENGTH, bits_length, settings_total};
use ports::size::{Size, is_allowed};
use refusal::Refusal;

// Ground 2, from the lengths lent.
fn lengths_ok(s: Size, table: usize, bits: usize, settings: usize) -> bool
    requires { Allowed s }
    ensures { result ≡ lengths_ok s table bits settings }
{
    if table != TABLE_LENGTH {
        return false;
    }
    if bits != bits_length(s) {
        return false;
    }
    settings == settings_total(s)
}

// On a yes the front of the room, as long as the output, holds the settings.
pub fn read_checks(
    s: Size,
    table: &[u16],
    bits: &[u64],
    settings: usize,
    room: &mut [u16],
) -> Result<(), Refusal>
    requires { length room.old ≡ room_length }
    ensures answer { result ≡ read_answer s table.now bits.now settings }
    ensures room { result ≡ (Ok tt) → take settings room.new ≡ decoded table.now (tiles_of bits.now) (tile_count s) }
{
    if !is_allowed(s) {
        return Err(Refusal::WrongSize);
    }
    let n = (s.h * s.w) as usize;
    if !lengths_ok(s, table.len(), bits.len(), settings) {
        return Err(Refusal::WrongLength);
    }
    let mut own = [0u16; POSITIONS];
    if let Some(part) = routing::rules::check_table(table, &mut own) {
        return Err(Refusal::Table(part as u32));
    }
    let room = &mut room[..settings];
    if let Some(place) = crate::blocks::read_block(table, &own, bits, room, n) {
        return Err(Refusal::Undecodable(place as u32));
    }
    Ok(())
}

pub fn write_checks(s: Size, table: &[u16], settings: &[u16], bits: usize) -> Result<(), Refusal>
    ensures { result ≡ write_answer s table.now settings.now bits }
{
    if !is_allowed(s) {
        return Err(Refusal::WrongSize);
    }
    let n = (s.h * s.w) as usize;
    if !lengths_ok(s, table.len(), bits, settings.len()) {
        return Err(Refusal::WrongLength);
    }
    check_settings(table, settings, n)
}

// Grounds 3 and 9 of n tiles.
pub fn check_settings(table: &[u16], settings: &[u16], n: usize) -> Result<(), Refusal>
    requires { (n ≤ 64) × (length table.now ≡ table_length) × (length settings.now ≡ settings_length * n) }
    ensures { result ≡ settings_answer table.now settings.now n (Ok tt) }
{
    if let Some(part) = routing::rules::faulty_part(table) {
        return Err(Refusal::Table(part as u32));
    }
    if let Some(tile) = crate::blocks::bitless_tile(table, settings, n) {
        return Err(Refusal::NoSuchSettings(tile as u32));
    }
    Ok(())
}
