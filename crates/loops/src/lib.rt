// Combinational loops (the papers' loop): which wire depends on itself. Only wires that were not listed are looked at: a listed one reads only
// listed ones and is on no loop (`Settled`).
#![tactic(auto)]

ghost use Rattle.std.specs.Prelude.{◌≡◌, ◌+◌, ◌*◌, ◌<◌, ◌≤◌, true, false, length, MatchOption};
ghost use Rattle.netlist.specs.Graph.{Closed, DependsOn, LowestLoop};
ghost use Rattle.netlist.specs.Marks.{Unlisted, only_listed, max_wires};
ghost use Rattle.netlist.specs.Order.{Settled};
ghost use Rattle.netlist.specs.Rows.{row_length, graph_of};

use crate::marks::write_listed;
use crate::ranking::rank_wires;
use crate::ranks::{first_level, is_ranked};
use netlist::row::{arity, operand, row_at};

mod marks;
mod ranking;
mod ranks;

// Whether a wire that is not listed depends on itself: follows the readings from it on, each wire once and no listed one, until it is met
// again. Each wire that is met goes to the end of the queue, so the turns are not counted by an index.
fn depends_on_itself(
    rows: &[u16],
    start: usize,
    marks: &mut [u16],
    queue: &mut [u16],
    listed: &[u16],
) -> bool
    requires rows_len { length rows.now ≡ row_length * length marks.old }
    requires closed { Closed (graph_of rows.now) (length marks.old) }
    requires marks_in_bounds { (length marks.old ≤ length queue.old) × (length marks.old ≤ max_wires) }
    requires listed_len { (length listed.now ≡ length marks.old) × Settled (graph_of rows.now) listed.now }
    requires start_in_bounds { (start < length marks.old) × Unlisted listed.now start }
    ensures yes { result ≡ true → DependsOn (graph_of rows.now) start start }
    ensures no { result ≡ false → DependsOn (graph_of rows.now) start start → ⊥ }
{
    lists::copy(listed, marks);
    marks[start] = 1;
    queue[0] = start as u16;
    let mut head = 0;
    let mut tail = 1;
    while head < tail {
        let v = usize::from(queue[head]);
        let row = row_at(rows, v);
        for j in 0..arity(row) {
            let x = operand(row, j);
            let d = usize::from(x);
            if d == start {
                return true;
            }
            if marks[d] == 0 {
                marks[d] = 1;
                queue[tail] = x;
                tail += 1;
            }
        }
        head += 1;
    }
    false
}

// The lowest wire that depends on itself, by a search from each that is not listed.
fn search_loop(rows: &[u16], marks: &mut [u16], queue: &mut [u16], listed: &[u16]) -> Option<usize>
    requires rows_len { length rows.now ≡ row_length * length marks.old }
    requires closed { Closed (graph_of rows.now) (length marks.old) }
    requires marks_in_bounds { (length marks.old ≤ length queue.old) × (length marks.old ≤ max_wires) }
    requires listed_len { (length listed.now ≡ length marks.old) × Settled (graph_of rows.now) listed.now }
    ensures { MatchOption result (LowestLoop (graph_of rows.now) (length marks.old) (length marks.old))
        (λ w. (w < length marks.old) × LowestLoop (graph_of rows.now) (length marks.old) w) }
{
    for w in 0..listed.len() {
        if listed[w] == 0 && depends_on_itself(rows, w, marks, queue, listed) {
            return Some(w);
        }
    }
    None
}

// The lowest wire that depends on itself. Ranks show that none below it does and one search that it does, so that
// the time is that of reading the rows a few times. Ranks that fail the check are thrown away.
fn find_loop(rows: &[u16], marks: &mut [u16], queue: &mut [u16], listed: &[u16]) -> Option<usize>
    requires rows_len { length rows.now ≡ row_length * length marks.old }
    requires closed { Closed (graph_of rows.now) (length marks.old) }
    requires marks_in_bounds { (length marks.old ≤ length queue.old) × (length marks.old ≤ max_wires) }
    requires listed_len { (length listed.now ≡ length marks.old) × Settled (graph_of rows.now) listed.now }
    ensures { MatchOption result (LowestLoop (graph_of rows.now) (length marks.old) (length marks.old))
        (λ w. (w < length marks.old) × LowestLoop (graph_of rows.now) (length marks.old) w) }
{
    rank_wires(rows, marks, queue, listed);
    if is_ranked(rows, marks, listed) {
        let w = first_level(rows, marks, listed)?;
        if depends_on_itself(rows, w, marks, queue, listed) {
            return Some(w);
        }
    }
    search_loop(rows, marks, queue, listed)
}

// The same, or the number of indices, from marks that are 1 where a wire is listed and may say something else elsewhere (`only_listed`); `listed` ends with what they say of
// listed wires. `marks` and `queue` are work rooms: what they end with is left open.
// Rules out: a wire that is not on a loop and depends on one; a loop's highest wire.
pub fn lowest_loop(rows: &[u16], marks: &mut [u16], queue: &mut [u16], listed: &mut [u16]) -> usize
    requires rows_len { length rows.now ≡ row_length * length marks.old }
    requires closed { Closed (graph_of rows.now) (length marks.old) }
    requires listed_len { (length listed.old ≡ length marks.old) × (length marks.old ≤ length queue.old) × (length marks.old ≤ max_wires) }
    requires settled { Settled (graph_of rows.now) (only_listed marks.old) }
    ensures answer { LowestLoop (graph_of rows.now) (length marks.old) result }
    ensures listed { listed.new ≡ only_listed marks.old }
{
    write_listed(marks, listed);
    find_loop(rows, marks, queue, listed).unwrap_or(listed.len())
}
