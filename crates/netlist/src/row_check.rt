// Ground 12 on one row: whether it may come next, or is all zeros.
ghost use Rattle.std.specs.Prelude.{◌≡◌, ◌<◌};
ghost use Rattle.lists.specs.Search.{all_from};
ghost use Rattle.netlist.specs.Marks.{listed};
ghost use Rattle.netlist.specs.Checking.{operand_good, row_good, zero_test};

use crate::row::{FLIP_FLOP, LOOKUP, MAJORITY, Row, arity, operand};

// Whether an index is marked; past the marks none is.
fn is_listed(marks: &[u16], w: usize) -> bool
    ensures { result ≡ listed marks.now w }
{
    w < marks.len() && marks[w] != 0
}

// Whether operand j is one that the row's kind may have. `marks` says which wires came before.
#[tactic(auto, unfolding(crate::specs::Checking::operand_good))]
fn operand_good(row: Row, cells: usize, marks: &[u16], j: usize) -> bool
    requires { j < 4 }
    ensures { result ≡ operand_good row cells (listed marks.now) j }
{
    let o = usize::from(operand(row, j));
    if j < arity(row) {
        is_listed(marks, o)
    } else if row.kind == FLIP_FLOP && j == 0 {
        o < cells
    } else {
        o == 0
    }
}

// Whether each of the four operands is one that the row's kind may have.
fn operands_good(row: Row, cells: usize, marks: &[u16]) -> bool
    ensures { result ≡ all_from (operand_good row cells (listed marks.now)) 0 4 }
{
    (0..4).all(|j| operand_good(row, cells, marks, j))
}

// Whether a row may come next.
#[tactic(auto, unfolding(crate::specs::Checking::row_good))]
pub fn row_good(row: Row, cells: usize, wires: &[u16], marks: &[u16]) -> bool
    ensures { result ≡ row_good row cells (listed wires.now) (listed marks.now) }
{
    let w = usize::from(row.wire);
    row.kind != 0
        && row.kind <= MAJORITY
        && is_listed(wires, w)
        && !is_listed(marks, w)
        && operands_good(row, cells, marks)
        && (row.kind == LOOKUP || row.table == 0)
}

// Whether all seven numbers of a row are 0.
#[tactic(auto, unfolding(crate::specs::Checking::zero_test))]
pub fn is_zero(row: Row) -> bool
    ensures { result ≡ zero_test row }
{
    row == Row::default()
}
