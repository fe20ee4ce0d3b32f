// Rows by wire into the list of rows in order, or the finding that there is a loop.
ghost use Rattle.std.specs.Prelude.{◌≡◌, ℕ, ◌+◌, ◌*◌, ◌<◌, ◌≤◌, not, ◌&&◌, length, get_or};
ghost use Rattle.lists.specs.Search.{first, below};
ghost use Rattle.netlist.specs.Graph.{Closed};
ghost use Rattle.netlist.specs.Marks.{listed, only_listed, max_wires};
ghost use Rattle.netlist.specs.Rows.{row_length, rows_of, Inside, graph_of};
ghost use Rattle.netlist.specs.OrderedRows.{row_in_order};
ghost use Rattle.scheduling.specs.Scheduling.{Answers, Queued};

use crate::order::list_wires;
use loops::lowest_loop;
use netlist::row::{ROW_LENGTH, row_at, write_row};

// The lowest wire that is not listed.
fn first_unlisted(rows: &[u16], marks: &[u16]) -> Option<usize>
    requires { length rows.now ≡ row_length * length marks.now }
    ensures { result ≡ below (length marks.now) (first (λ w. (graph_of rows.now).wire w && not (listed (only_listed marks.now) w)) 0
        (length marks.now)) }
{
    (0..marks.len()).find(|w| marks[*w] != 1 && row_at(rows, *w).kind != 0)
}

// Writes the rows of the first `count` wires, and zeros behind them, n rows in all.
pub fn write_list(rows: &[u16], wires: &[u16], count: usize, n: usize, list: &mut [u16])
    requires count_in_bounds { (count ≤ length wires.now) × (count ≤ n) × (length list.old ≡ row_length * n) }
    requires by_index { (i : ℕ) → i < count → Inside rows.now (get_or wires.now i 0) }
    ensures { list.new ≡ rows_of (row_in_order rows.now wires.now count) n }
{
    for k in 0..count {
        let row = row_at(rows, usize::from(wires[k]));
        write_row(list, k, row);
    }
    list[ROW_LENGTH * count..].fill(0);
}

// How many rows are listed, in the order that is left at the front of `queue`; or, as the error, the lowest wire that depends on itself. `write_list` then writes the
// list, so that a caller can make more checks before it touches its output. `marks` and `links` are work rooms, and so is the queue where there is
// a loop: what they end with is left open.
// Rules out: a loop's place taken as the first wire that never becomes ready; a wire left over.
pub fn schedule(
    rows: &[u16],
    marks: &mut [u16],
    queue: &mut [u16],
    links: &mut [u16],
) -> Result<usize, usize>
    requires rows_len { length rows.now ≡ row_length * length marks.old }
    requires closed { Closed (graph_of rows.now) (length marks.old) }
    requires links_len { (length links.old ≡ length marks.old) × (length marks.old ≤ length queue.old) × (length marks.old ≤ max_wires) }
    ensures answer { Answers (graph_of rows.now) (length marks.old) result }
    ensures queue { Queued (graph_of rows.now) (length marks.old) queue.old queue.new result }
{
    let count = list_wires(rows, marks, links, queue);
    match first_unlisted(rows, marks) {
        None => Ok(count),
        Some(_) => Err(lowest_loop(rows, marks, queue, links)),
    }
}
