// The fabric of a block of logic tiles (document 01, 'Ports' and 'Joins'): what each port of a tile is, which ports the published
// joins make one wire, and the number of a wire. Nothing here knows of routing tables, settings or values.
//
// `wire_number` takes any input. The other functions ask for a block of a right size and a port of it. The contracts cite
// specs/, and callers cite laws of proofs/, most of all BlockLaws.antt and WireLaws.antt; proofs/Lib.antt lists them.
#![tactic(auto)]

ghost use Rattle.std.specs.Prelude.{◌≡◌};
ghost use Rattle.ports.specs.Block.{port_of};
ghost use Rattle.fabric.specs.WireNumber.{wire_number, IsWire};

use crate::wire::wire_of;
use ports::size::Block;
use refusal::Refusal;

pub mod output;
pub mod span;
pub mod span_wire;
pub mod wire;

// The number of the wire that a port of a tile is on. Grounds 1 and 20, in this order, a tile's number before a port's (`wire_number`).
// Rules out: a number that is not the lowest of its wire by the joins; naming the port where the tile is out of range too.
pub fn wire_number(b: Block, tile: u32, port: u32) -> Result<u16, Refusal>
    ensures answer { result ≡ wire_number b tile port }
    ensures joins { IsWire b (port_of tile port) result }
{
    if !ports::size::is_sized(b) {
        return Err(Refusal::WrongSize);
    }
    if b.h * b.w <= tile {
        return Err(Refusal::OutOfRange(tile));
    }
    if ports::lengths::PORTS_PER_TILE <= port {
        return Err(Refusal::OutOfRange(port));
    }
    Ok(wire_of(b, ports::lengths::PORTS_PER_TILE * tile + port) as u16)
}
