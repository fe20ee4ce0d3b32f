// What drives the wire of a port where no switch does (document 01, 'Cells').
ghost use Rattle.std.specs.Prelude.{◌≡◌, ℕ, ◌<◌};
ghost use Rattle.ports.specs.Block.{Sized};
ghost use Rattle.ports.specs.Lengths.{ports};
ghost use Rattle.ports.specs.PortNames.{Within};
ghost use Rattle.equations.specs.declared.drives.Drive.{Drive};
ghost use Rattle.equations.specs.Drives.{output_drive, below_drive, drive_at, drive_of};

use ports::lengths::PORTS_PER_TILE;
use ports::size::Block;
use ports::{LOCAL, OUT, Port, port_at};

// What drives a wire.
#[derive(Clone, Copy)]
pub enum Drive {
    // An open wire.
    Nothing,
    // The constants 0 and 1.
    Low,
    High,
    // An output of a cell: tile and cell.
    CellOut(u32, u32),
    CellLout(u32, u32),
    CellCout(u32, u32),
    // The carry_in_mux of a tile.
    CarryMux(u32),
}

// Output i of the tile (east - 1, north - 1), where the block has it.
fn output_drive(b: Block, east: u32, north: u32, i: u32) -> Drive
    requires { Sized b }
    ensures { result ≡ output_drive b east north i }
{
    if (1..=b.w).contains(&east) && (1..=b.h).contains(&north) {
        Drive::CellOut((north - 1) * b.w + (east - 1), i)
    } else {
        Drive::Nothing
    }
}

// What the tile to the south gives, where the block has it.
fn below_drive<F: Fn(u32) -> Drive>(b: Block, x: u32, y: u32, gives: F) -> Drive
    requires inside { Sized b × (x < b.w) × (y < b.h) }
    requires callable { F.IsAlwaysCallable gives }
    ensures { (f : ℕ → Drive) → ((t : ℕ) (d : Drive) → F.post gives t d → d ≡ f t) → result ≡ below_drive f b x y }
{
    if y == 0 {
        Drive::Nothing
    } else {
        gives((y - 1) * b.w + x)
    }
}

// What drives the wire of a port of the tile (x, y).
// Rules out: cen taken as 0 where it has no switch; a neighbour outside the block taken as a cell.
#[tactic(auto, unfolding(crate::specs::Drives::drive_at))]
fn drive_at(b: Block, x: u32, y: u32, port: Port) -> Drive
    requires { Sized b × (x < b.w) × (y < b.h) × Within port }
    ensures { result ≡ drive_at b x y port }
{
    let tile = y * b.w + x;
    match port {
        Port::Local(_) | Port::Glb2Local(_) | Port::In(_, _) | Port::Clk | Port::SR => Drive::Low,
        Port::Cen => Drive::High,
        Port::Out(i) => Drive::CellOut(tile, i),
        Port::NeighOp(dx, dy, i) => output_drive(b, x + dx, y + dy, i),
        Port::CarryIn => below_drive(b, x, y, |south| Drive::CellCout(south, 7)),
        Port::CarryInMux => Drive::CarryMux(tile),
        Port::Cout(i) => Drive::CellCout(tile, i),
        Port::Lout(i) => Drive::CellLout(tile, i),
        Port::Ltin => below_drive(b, x, y, |south| Drive::CellLout(south, 7)),
        _ => Drive::Nothing,
    }
}

// What drives the wire of port p of a block. Most ports are spans, locals and inputs, whose drive is known by their place in the tile.
pub fn drive_of(b: Block, p: u32) -> Drive
    requires { Sized b × (p < ports b) }
    ensures { result ≡ drive_of b p }
{
    let q = p % PORTS_PER_TILE;
    match q {
        // the spans
        ..LOCAL => Drive::Nothing,
        // local, glb2local and in
        LOCAL..OUT => Drive::Low,
        _ => {
            let tile = p / PORTS_PER_TILE;
            drive_at(b, tile % b.w, tile / b.w, port_at(q))
        }
    }
}
