// The open wires that a leaving wire or a flip-flop depends on.
ghost use Rattle.std.specs.Prelude.{◌≡◌, ◌*◌, ◌<◌, length};
ghost use Rattle.ports.specs.Block.{tiles};
ghost use Rattle.ports.specs.Lengths.{ports};
ghost use Rattle.netlist.specs.Rows.{Inside, row_at, arity_of};
ghost use Rattle.equations.specs.Routed.{Mapped};
ghost use Rattle.card.specs.Marks.{flop_mark, flop_marks, ReadsWithin, read_marks, touched, Touchable, RowsTouchable, reach, open_from, kept_at, open_marks};

use crate::cells::is_flop;
use crate::marks::mark_ports;
use equations::rows::row_of;
use netlist::row;
use netlist::row::Row;
use ports::lengths::CELLS_PER_TILE;
use ports::size::Block;

// The in, clk, cen and s_r wires of cell c, if its flip-flop is enabled, are marked.
fn mark_flop(b: Block, st: &[u16], wires: &[u16], c: usize, marks: &mut [u16])
    requires { Mapped b st.now wires.now × (c < 8 * tiles b) × (length marks.old ≡ ports b) }
    ensures { marks.new ≡ flop_mark b st.now c marks.old }
{
    if is_flop(st, c) {
        let tile = c / CELLS_PER_TILE;
        let i = (c % CELLS_PER_TILE) as u32;
        mark_ports(b, wires, tile, ports::IN + 4 * i, 4, marks);
        mark_ports(b, wires, tile, ports::CLK, 3, marks);
    }
}

// The same of every cell.
fn mark_flops(b: Block, st: &[u16], wires: &[u16], marks: &mut [u16])
    requires { Mapped b st.now wires.now × (length marks.old ≡ ports b) }
    ensures { marks.new ≡ flop_marks b st.now (8 * tiles b) marks.old }
{
    let cells = CELLS_PER_TILE * (b.h * b.w) as usize;
    for c in 0..cells {
        mark_flop(b, st, wires, c, marks);
    }
}

// What a row reads is marked.
fn mark_reads(row: Row, marks: &mut [u16])
    requires { ReadsWithin (length marks.old) row }
    ensures { marks.new ≡ read_marks row (arity_of row) marks.old }
{
    for j in 0..row::arity(row) {
        let d = usize::from(row::operand(row, j));
        marks[d] = 1;
    }
}

// What row i reads is marked, if its wire is.
fn touch_row(list: &[u16], i: usize, marks: &mut [u16])
    requires { Inside list.now i × Touchable (length marks.old) (row_at list.now i) }
    ensures { marks.new ≡ touched (row_at list.now i) marks.old }
{
    let row = row::row_at(list, i);
    let w = usize::from(row.wire);
    if marks[w] != 0 {
        mark_reads(row, marks);
    }
}

// What the marked wires depend on, at any distance, is marked too. A row reads only wires of earlier rows, so one pass is enough: from the last row down.
fn mark_reached(list: &[u16], count: usize, marks: &mut [u16])
    requires { RowsTouchable list.now count (length marks.old) }
    ensures { marks.new ≡ reach list.now count marks.old }
{
    for i in (0..count).rev() {
        touch_row(list, i, marks);
    }
}

// Whether the row of port number p is that of an open wire.
fn is_open(b: Block, st: &[u16], wires: &[u16], sources: &[u16], p: usize) -> bool
    requires { Mapped b st.now wires.now × (length sources.now ≡ ports b) × (p < ports b) }
    ensures { result ≡ open_from b st.now sources.now p }
{
    row_of(b, st, wires, sources, p).kind == row::LENT
}

// A mark stays where the wire is open.
fn keep_open_at(b: Block, st: &[u16], wires: &[u16], sources: &[u16], w: usize, marks: &mut [u16])
    requires { Mapped b st.now wires.now × (length sources.now ≡ ports b) × (length marks.old ≡ ports b) × (w < ports b) }
    ensures { marks.new ≡ kept_at (open_from b st.now sources.now) w marks.old }
{
    if marks[w] != 0 && !is_open(b, st, wires, sources, w) {
        marks[w] = 0;
    }
}

fn keep_open(b: Block, st: &[u16], wires: &[u16], sources: &[u16], marks: &mut [u16])
    requires { Mapped b st.now wires.now × (length sources.now ≡ ports b) × (length marks.old ≡ ports b) }
    ensures { marks.new ≡ open_marks b st.now sources.now marks.old }
{
    for w in 0..marks.len() {
        keep_open_at(b, st, wires, sources, w, marks);
    }
}

// Marks of the leaving wires become those of the open wires that these or a flip-flop depend on.
// Rules out: only what such a wire reads itself; open wires that only a lookup without a flip-flop depends on.
pub fn mark_feeding(
    b: Block,
    st: &[u16],
    wires: &[u16],
    sources: &[u16],
    list: &[u16],
    count: usize,
    marks: &mut [u16],
)
    requires mapped { Mapped b st.now wires.now × (length sources.now ≡ ports b) × (length marks.old ≡ ports b) }
    requires rows_touchable { RowsTouchable list.now count (ports b) }
    ensures { marks.new ≡ open_marks b st.now sources.now
        (reach list.now count (flop_marks b st.now (8 * tiles b) marks.old)) }
{
    mark_flops(b, st, wires, marks);
    mark_reached(list, count, marks);
    keep_open(b, st, wires, sources, marks);
}
