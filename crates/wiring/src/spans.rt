// The ports of spans: in a row from the tile to the west, in a column from the tile to the south.
ghost use Rattle.std.specs.Prelude.{◌+◌, ◌<◌};
ghost use Rattle.ports.specs.Block.{Sized, port};
ghost use Rattle.ports.specs.PortIndex.{sp4_vt, sp4_rvb, sp12_hl, sp12_vt, local_port};
ghost use Rattle.fabric.specs.Span.{names};
ghost use Rattle.wiring.specs.Fill.{Wired, Owns, FarSide, FromSouth, RowSpan, EastSpan};

use crate::ranges::{copy, cross, own};
use fabric::span::Span;
use fabric::span_wire::{SPAN4_COLUMN, SPAN12_COLUMN};
use ports::size::Block;

// The far side of a tile whose near side is filled.
fn far_side(s: Span, b: Block, wires: &mut [u16], x: u32, y: u32)
    requires { Sized b × FarSide b s x y × Wired b (port b x y s.far) wires.old }
    ensures { Wired b (port b x y (s.far + names s)) wires.new }
{
    own(b, wires, x, y, s.far, s.shift);
    cross(b, wires, x, y, s.near, x, y, s.far + s.shift, s.through);
}

// Both sides of a tile at the block's rim, whose near side starts its wires.
fn from_rim(s: Span, b: Block, wires: &mut [u16], x: u32, y: u32)
    requires { Sized b × Owns b x y s.near (names s) × FarSide b s x y × Wired b (port b x y s.near) wires.old }
    ensures { Wired b (port b x y (s.far + names s)) wires.new }
{
    own(b, wires, x, y, s.near, s.through + s.shift);
    far_side(s, b, wires, x, y);
}

// Both sides of a tile in a column, where port p of the tile (u, v) is name 0 at the edge to the south.
fn from_south(s: Span, b: Block, wires: &mut [u16], u: u32, v: u32, p: u32, x: u32, y: u32)
    requires { Sized b × FromSouth b s u v p x y × Wired b (port b x y s.near) wires.old }
    ensures { Wired b (port b x y (s.far + names s)) wires.new }
{
    cross(b, wires, u, v, p + s.shift, x, y, s.near, s.through);
    own(b, wires, x, y, s.near + s.through, s.shift);
    copy(b, wires, u, v, p, x, y, s.far, s.through + s.shift);
}

// Both sides of a tile in a row: its near side is the far side of the tile to the west.
pub fn row(s: Span, b: Block, wires: &mut [u16], x: u32, y: u32)
    requires { Sized b × RowSpan b s × (x < b.w) × (y < b.h) × Wired b (port b x y s.near) wires.old }
    ensures { Wired b (port b x y (s.far + names s)) wires.new }
{
    if 0 < x {
        copy(b, wires, x - 1, y, s.far, x, y, s.near, s.through + s.shift);
        far_side(s, b, wires, x, y);
    } else {
        from_rim(s, b, wires, x, y);
    }
}

// sp4_v_t and sp4_v_b. On the rim the right-neighbour names of the tile to the west come first.
pub fn fill_sp4_column(b: Block, wires: &mut [u16], x: u32, y: u32)
    requires { Sized b × (x < b.w) × (y < b.h) × Wired b (port b x y (sp4_vt 0)) wires.old }
    ensures { Wired b (port b x y (sp4_rvb 0)) wires.new }
{
    if 0 < y {
        from_south(SPAN4_COLUMN, b, wires, x, y - 1, ports::SP4_V_T, x, y);
    } else if 0 < x {
        from_south(SPAN4_COLUMN, b, wires, x - 1, y, ports::SP4_R_V_B, x, y);
    } else {
        from_rim(SPAN4_COLUMN, b, wires, x, y);
    }
}

// sp4_r_v_b at the east column, where the column outside runs on: as sp4_v_t from the row to the south.
fn outside(b: Block, wires: &mut [u16], x: u32, y: u32)
    requires { Sized b × EastSpan b x y × Wired b (port b x y (sp4_rvb 0)) wires.old }
    ensures { Wired b (port b x y (sp12_hl 0)) wires.new }
{
    cross(
        b,
        wires,
        x,
        y - 1,
        ports::SP4_R_V_B + 12,
        x,
        y,
        ports::SP4_R_V_B,
        36,
    );
    own(b, wires, x, y, ports::SP4_R_V_B + 36, 12);
}

// sp4_r_v_b: what the tile to the east has as sp4_v_b.
pub fn right(b: Block, wires: &mut [u16], x: u32, y: u32)
    requires { Sized b × (x < b.w) × (y < b.h) × Wired b (port b x y (sp4_rvb 0)) wires.old }
    ensures { Wired b (port b x y (sp12_hl 0)) wires.new }
{
    if y < 1 {
        own(b, wires, x, y, ports::SP4_R_V_B, 48);
    } else if x + 1 < b.w {
        copy(
            b,
            wires,
            x + 1,
            y - 1,
            ports::SP4_V_T,
            x,
            y,
            ports::SP4_R_V_B,
            48,
        );
    } else if b.east == 1 {
        outside(b, wires, x, y);
    } else {
        own(b, wires, x, y, ports::SP4_R_V_B, 48);
    }
}

// sp12_v_t and sp12_v_b.
pub fn fill_sp12_column(b: Block, wires: &mut [u16], x: u32, y: u32)
    requires { Sized b × (x < b.w) × (y < b.h) × Wired b (port b x y (sp12_vt 0)) wires.old }
    ensures { Wired b (port b x y (local_port 0)) wires.new }
{
    if 0 < y {
        from_south(SPAN12_COLUMN, b, wires, x, y - 1, ports::SP12_V_T, x, y);
    } else {
        from_rim(SPAN12_COLUMN, b, wires, x, y);
    }
}
