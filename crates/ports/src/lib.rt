// The ports of a block (document 01, 'The block and its sources', 'Ports'): what each port of a tile is, and its number. `size` has the block's size,
// `lengths` how long what is lent for it is. Nothing here knows of joins.
#![tactic(auto)]

ghost use Rattle.std.specs.Prelude.{◌≡◌, ◌<◌};
ghost use Rattle.ports.specs.Block.{Sized, port};
ghost use Rattle.ports.specs.Lengths.{ports_per_tile};
ghost use Rattle.ports.specs.Ports.{port_at};

use crate::lengths::PORTS_PER_TILE;
use crate::size::Block;

pub mod lengths;
pub mod size;

// The first port of each range, in index order.
pub const SP4_H_L: u32 = 0;

pub const SP4_H_R: u32 = 48;

pub const SP4_V_T: u32 = 96;

pub const SP4_V_B: u32 = 144;

pub const SP4_R_V_B: u32 = 192;

pub const SP12_H_L: u32 = 240;

pub const SP12_H_R: u32 = 264;

pub const SP12_V_T: u32 = 288;

pub const SP12_V_B: u32 = 312;

pub const LOCAL: u32 = 336;

pub const GLB2LOCAL: u32 = 368;

pub const IN: u32 = 372;

pub const OUT: u32 = 404;

pub const NEIGH_BNL: u32 = 412;

pub const NEIGH_BOT: u32 = 420;

pub const NEIGH_BNR: u32 = 428;

pub const NEIGH_LFT: u32 = 436;

pub const NEIGH_RGT: u32 = 444;

pub const NEIGH_TNL: u32 = 452;

pub const NEIGH_TOP: u32 = 460;

pub const NEIGH_TNR: u32 = 468;

pub const CLK: u32 = 476;

pub const CEN: u32 = 477;

pub const S_R: u32 = 478;

pub const GLB_NETWK: u32 = 479;

pub const CARRY_IN: u32 = 487;

pub const CARRY_IN_MUX: u32 = 488;

pub const COUT: u32 = 489;

pub const LOUT: u32 = 497;

pub const LTIN: u32 = 505;

// What a port of a tile is: the paper's names, with their numbers.
#[derive(Clone, Copy)]
pub enum Port {
    Sp4HL(u32),
    Sp4HR(u32),
    Sp4VT(u32),
    Sp4VB(u32),
    Sp4RVB(u32),
    Sp12HL(u32),
    Sp12HR(u32),
    Sp12VT(u32),
    Sp12VB(u32),
    // local_gA_B is Local(8A + B).
    Local(u32),
    Glb2Local(u32),
    // in_j of cell i is In(i, j).
    In(u32, u32),
    Out(u32),
    // Output i of the tile (x + dx - 1, y + dy - 1) is NeighOp(dx, dy, i): bnl is (0, 0), tnr (2, 2).
    NeighOp(u32, u32, u32),
    Clk,
    Cen,
    SR,
    GlbNetwk(u32),
    CarryIn,
    CarryInMux,
    Cout(u32),
    Lout(u32),
    Ltin,
}

// What port q of a tile is. There is none from PORTS_PER_TILE on, and the answer there means nothing.
// Rules out: a range that is one port too long; the neighbours in another order.
pub fn port_at(q: u32) -> Port
    ensures { result ≡ port_at q }
{
    match q {
        ..SP4_H_R => Port::Sp4HL(q),
        SP4_H_R..SP4_V_T => Port::Sp4HR(q - SP4_H_R),
        SP4_V_T..SP4_V_B => Port::Sp4VT(q - SP4_V_T),
        SP4_V_B..SP4_R_V_B => Port::Sp4VB(q - SP4_V_B),
        SP4_R_V_B..SP12_H_L => Port::Sp4RVB(q - SP4_R_V_B),
        SP12_H_L..SP12_H_R => Port::Sp12HL(q - SP12_H_L),
        SP12_H_R..SP12_V_T => Port::Sp12HR(q - SP12_H_R),
        SP12_V_T..SP12_V_B => Port::Sp12VT(q - SP12_V_T),
        SP12_V_B..LOCAL => Port::Sp12VB(q - SP12_V_B),
        LOCAL..GLB2LOCAL => Port::Local(q - LOCAL),
        GLB2LOCAL..IN => Port::Glb2Local(q - GLB2LOCAL),
        IN..OUT => Port::In((q - IN) / 4, (q - IN) % 4),
        OUT..NEIGH_BNL => Port::Out(q - OUT),
        NEIGH_BNL..NEIGH_BOT => Port::NeighOp(0, 0, q - NEIGH_BNL),
        NEIGH_BOT..NEIGH_BNR => Port::NeighOp(1, 0, q - NEIGH_BOT),
        NEIGH_BNR..NEIGH_LFT => Port::NeighOp(2, 0, q - NEIGH_BNR),
        NEIGH_LFT..NEIGH_RGT => Port::NeighOp(0, 1, q - NEIGH_LFT),
        NEIGH_RGT..NEIGH_TNL => Port::NeighOp(2, 1, q - NEIGH_RGT),
        NEIGH_TNL..NEIGH_TOP => Port::NeighOp(0, 2, q - NEIGH_TNL),
        NEIGH_TOP..NEIGH_TNR => Port::NeighOp(1, 2, q - NEIGH_TOP),
        NEIGH_TNR..CLK => Port::NeighOp(2, 2, q - NEIGH_TNR),
        CLK..CEN => Port::Clk,
        CEN..S_R => Port::Cen,
        S_R..GLB_NETWK => Port::SR,
        GLB_NETWK..CARRY_IN => Port::GlbNetwk(q - GLB_NETWK),
        CARRY_IN..CARRY_IN_MUX => Port::CarryIn,
        CARRY_IN_MUX..COUT => Port::CarryInMux,
        COUT..LOUT => Port::Cout(q - COUT),
        LOUT..LTIN => Port::Lout(q - LOUT),
        _ => Port::Ltin,
    }
}

// The number of port q of the tile (x, y).
pub fn port_number(b: Block, x: u32, y: u32, q: u32) -> u32
    requires { Sized b × (x < b.w) × (y < b.h) × (q < ports_per_tile) }
    ensures { result ≡ port b x y q }
{
    PORTS_PER_TILE * (y * b.w + x) + q
}
