// The exports for C and Rust: include/ice40.h declares them. Each is the function of capi that has its name, with the same clauses, so that capi
// stays a library. The archive of this crate is what `make` gives out as libcapi.a and libice40.a.
#![tactic(auto)]

ghost use Rattle.std.specs.Prelude.{◌≡◌};
ghost use Rattle.ports.specs.Block.{block};
ghost use Rattle.fabric.specs.WireNumber.{wire_number};
ghost use Rattle.cell.specs.Lookup.{looked_up};
ghost use Rattle.capi.specs.Packed.{packed_number};

pub mod blocks;
pub mod cards;
pub mod circuits;
pub mod comparing;
pub mod contentions;
pub mod files;
pub mod forms;
pub mod settling;

// The number of the wire that a port of a tile is on, in a block of w by h tiles; east is 1 where the column to the east of it is logic or
// RAM, else 0. Grounds 1 and 20.
#[unsafe(no_mangle)]
pub extern "C" fn ice40_wire_number(w: u32, h: u32, east: u32, tile: u32, port: u32) -> u64
    ensures { result ≡ packed_number (wire_number (block w h east) tile port) }
{
    capi::ice40_wire_number(w, h, east, tile, port)
}

// The bit of a lookup table at inputs given as one number, in_0 with weight 1. Ground 20.
#[unsafe(no_mangle)]
pub extern "C" fn ice40_lookup(table: u16, inputs: u32) -> u64
    ensures { result ≡ packed_number (looked_up table inputs) }
{
    capi::ice40_lookup(table, inputs)
}
