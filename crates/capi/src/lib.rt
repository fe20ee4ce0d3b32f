// The entry points for C and Rust, as functions of a library; capi_c exports them. Each takes numbers and slices, in the order w, h, east, table, inputs, outputs,
// work room, and answers one 64-bit number; include/ice40.h declares them. Document 01: "The board viewer is written in C and calls the
// lookup and the wire number".
//
// What a call does is the contract of the function that it wraps. The answer's ground, `ground_in`, says what lent memory holds afterwards.
#![tactic(auto)]

ghost use Rattle.std.specs.Prelude.{◌≡◌};
ghost use Rattle.ports.specs.Block.{block};
ghost use Rattle.fabric.specs.WireNumber.{wire_number};
ghost use Rattle.cell.specs.Lookup.{looked_up};
ghost use Rattle.capi.specs.Packed.{packed_number, ground_in};

use ports::size::Block;

pub mod blocks;
pub mod cards;
pub mod circuits;
pub mod comparing;
pub mod contentions;
pub mod files;
pub mod forms;
pub mod pack;
pub mod settling;

// The number of the wire that a port of a tile is on, in a block of w by h tiles; east is 1 where the column to the east of it is logic or
// RAM, else 0. Grounds 1 and 20.
pub fn ice40_wire_number(w: u32, h: u32, east: u32, tile: u32, port: u32) -> u64
    ensures { result ≡ packed_number (wire_number (block w h east) tile port) }
{
    pack::pack_number(fabric::wire_number(Block { w, h, east }, tile, port).map(u32::from))
}

// The bit of a lookup table at inputs given as one number, in_0 with weight 1. Ground 20.
pub fn ice40_lookup(table: u16, inputs: u32) -> u64
    ensures { result ≡ packed_number (looked_up table inputs) }
{
    pack::pack_number(cell::logic::lookup(table, inputs).map(u32::from))
}
