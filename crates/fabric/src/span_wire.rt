// The wires of spans (document 01, 'Joins'): for span-4 and span-12, along rows and columns, the lowest port of the wire that has a name
// at an edge.
ghost use Rattle.std.specs.Prelude.{◌≡◌, ◌≤◌, ◌<◌};
ghost use Rattle.ports.specs.Block.{Sized};
ghost use Rattle.fabric.specs.Span.{flip, names, Proper, span4_column, span12_column};
ghost use Rattle.fabric.specs.SpanWire.{row_wire, foot, sp4_column, sp12_column, right_wire};

use crate::span::{Edge, Span, crossing, go_south, go_west};
use ports::size::Block;

pub const SPAN4_ROW: Span = Span {
    through: 36,
    shift: 12,
    near: ports::SP4_H_L,
    far: ports::SP4_H_R,
};

pub const SPAN12_ROW: Span = Span {
    through: 22,
    shift: 2,
    near: ports::SP12_H_L,
    far: ports::SP12_H_R,
};

pub const SPAN4_COLUMN: Span = Span {
    through: 36,
    shift: 12,
    near: ports::SP4_V_T,
    far: ports::SP4_V_B,
};

pub const SPAN12_COLUMN: Span = Span {
    through: 22,
    shift: 2,
    near: ports::SP12_V_T,
    far: ports::SP12_V_B,
};

// The wire of name k at edge e of row y.
pub fn row_wire(s: Span, b: Block, y: u32, e: u32, k: u32) -> u32
    requires { Proper s × Sized b × (y < b.h) × (e ≤ b.w) × (k < names s) }
    ensures { result ≡ row_wire flip s b y e k }
{
    let Edge { at, name } = go_west(s, e, k);
    if 0 < at {
        ports::port_number(b, at - 1, y, s.far + name)
    } else {
        ports::port_number(b, 0, y, s.near + name)
    }
}

// The lowest port of column x at the block's south rim.
fn foot_port(s: Span, b: Block, x: u32, k: u32) -> u32
    requires { Proper s × Sized b × (x < b.w) × (k < names s) }
    ensures { result ≡ foot flip s b x k }
{
    if s.shift <= k {
        ports::port_number(b, x, 0, s.near + crossing(k - s.shift))
    } else {
        ports::port_number(b, x, 0, s.far + k)
    }
}

// The wire of a span-4 name k at edge e of column x. On the rim the tile to the west names it first.
pub fn sp4_column(b: Block, x: u32, e: u32, k: u32) -> u32
    requires { Sized b × (x < b.w) × (e ≤ b.h) × (k < names span4_column) }
    ensures { result ≡ sp4_column b x e k }
{
    let Edge { at, name } = go_south(SPAN4_COLUMN, e, k);
    if 0 < at {
        ports::port_number(b, x, at - 1, ports::SP4_V_T + name)
    } else if 0 < x {
        ports::port_number(b, x - 1, 0, ports::SP4_R_V_B + name)
    } else {
        foot_port(SPAN4_COLUMN, b, x, name)
    }
}

// The wire of a span-12 name k at edge e of column x.
pub fn sp12_column(b: Block, x: u32, e: u32, k: u32) -> u32
    requires { Sized b × (x < b.w) × (e ≤ b.h) × (k < names span12_column) }
    ensures { result ≡ sp12_column b x e k }
{
    let Edge { at, name } = go_south(SPAN12_COLUMN, e, k);
    if 0 < at {
        ports::port_number(b, x, at - 1, ports::SP12_V_T + name)
    } else {
        foot_port(SPAN12_COLUMN, b, x, name)
    }
}

// The wire of sp4_r_v_b_k: a name of the column to the east, in the block or outside it.
pub fn right_wire(b: Block, x: u32, y: u32, k: u32) -> u32
    requires { Sized b × (x < b.w) × (y < b.h) × (k < names span4_column) }
    ensures { result ≡ right_wire b x y k }
{
    if x + 1 < b.w {
        sp4_column(b, x + 1, y, k)
    } else if b.east == 1 {
        let Edge { at, name } = go_south(SPAN4_COLUMN, y, k);
        ports::port_number(b, x, at, ports::SP4_R_V_B + name)
    } else {
        ports::port_number(b, x, y, ports::SP4_R_V_B + k)
    }
}
