// Ground 12: the first row of a lent list that may not stand where it does.
ghost use Rattle.std.specs.Prelude.{◌≡◌, ℕ, ◌*◌, ◌<◌, ◌≤◌, ◌-◌, not, length, get_or};
ghost use Rattle.lists.specs.Search.{first, below};
ghost use Rattle.lists.specs.Tables.{zeros};
ghost use Rattle.netlist.specs.Rows.{row_length, row_at};
ghost use Rattle.netlist.specs.Checking.{zero_test, good_at, wire_count, first_bad_row};

use crate::row::{ROW_LENGTH, row_at};
use crate::row_check::{is_zero, row_good};

// How many wires the block has. A sum of 16 bits lets the compiler take eight marks at a time.
pub fn count_wires(wires: &[u16]) -> usize
    requires { length wires.now < 65536 }
    ensures { result ≡ wire_count wires.now }
{
    let count: u16 = wires.iter().map(|w| u16::from(*w != 0)).sum();
    usize::from(count)
}

// The first of the rows below `count` that may not stand where it does. `marks` ends with the wires of the rows before it.
fn first_not_good(
    list: &[u16],
    count: usize,
    cells: usize,
    wires: &[u16],
    marks: &mut [u16],
) -> Option<usize>
    requires { (row_length * count ≤ length list.now) × (length wires.now ≡ length marks.old) }
    ensures { result ≡ below count (first (λ i. not (good_at list.now cells wires.now i)) 0 count) }
{
    marks.fill(0);
    for i in 0..count {
        let row = row_at(list, i);
        if !row_good(row, cells, wires, marks) {
            return Some(i);
        }
        marks[usize::from(row.wire)] = 1;
    }
    None
}

// The numbers from `from` on, below `to`, or-ed: none is higher.
fn or_all(list: &[u16], from: usize, to: usize) -> u16
    requires { (from ≤ to) × (to ≤ length list.now) }
    ensures { (k : ℕ) → from ≤ k → k < to → get_or list.now k 0 ≤ result }
{
    list[from..to].iter().fold(0, |any, x| any | *x)
}

// The first of the rows from `from` on, below n, that is not zero. One pass over the numbers says whether there is one.
fn first_not_zero(list: &[u16], from: usize, n: usize) -> Option<usize>
    requires { (row_length * n ≤ length list.now) × (from ≤ n) }
    ensures { result ≡ below n (first (λ i. not (zero_test (row_at list.now i))) from (n - from)) }
{
    if or_all(list, ROW_LENGTH * from, ROW_LENGTH * n) == 0 {
        None
    } else {
        (from..n).find(|i| !is_zero(row_at(list, *i)))
    }
}

// The first row that breaks a rule of ground 12, or the number of rows. `wires` is not 0 at the block's wires, `count` is how many they
// are, and `cells` how many cells there are. `marks` ends as zeros.
// Rules out: a row's own wire as its operand; a row past the number of wires let through.
pub fn first_bad_row(
    list: &[u16],
    count: usize,
    cells: usize,
    wires: &[u16],
    marks: &mut [u16],
) -> usize
    requires { (length list.now ≡ row_length * length wires.now) × (length marks.old ≡ length wires.now) ×
        (count ≡ wire_count wires.now) }
    ensures answer { result ≡ first_bad_row list.now cells wires.now }
    ensures marks { marks.new ≡ zeros (length marks.old) }
{
    let n = wires.len();
    let bad = first_not_good(list, count, cells, wires, marks);
    marks.fill(0);
    match bad {
        Some(i) => i,
        None => first_not_zero(list, count, n).unwrap_or(n),
    }
}
