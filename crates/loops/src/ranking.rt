// A guess at ranks by which the wires of a loop have one: the strong components of what is read, found depth first (after Pearce) in the
// lent room. Listed wires are left out. Only what bounds that room is proved of it, and `is_ranked` checks what it gives.
ghost use Rattle.std.specs.Prelude.{◌≡◌, ℕ, ◌+◌, ◌*◌, ◌<◌, ◌≤◌, length, get_or, IfSome};
ghost use Rattle.netlist.specs.Graph.{Closed};
ghost use Rattle.netlist.specs.Marks.{unmarked, max_wires};
ghost use Rattle.netlist.specs.Rows.{row_length, graph_of};
ghost use Rattle.loops.specs.Ranks.{Descending, steps_left};
ghost use Rattle.loops.specs.declared.ranking.Descent.{Descent};

use crate::ranks::highest_mark;
use netlist::row::{arity, operand, row_at};

// Where the ranking is: wires on the path, at the front of the queue; wires left that lead back to the path, held at the end of the queue;
// ranks given. A wire that is on the path or held has a mark above them.
#[derive(Clone, Copy, Default)]
pub struct Descent {
    pub depth: usize,
    pub held: usize,
    pub ranks: usize,
}

// The first operand of v without a mark.
fn first_unmarked(rows: &[u16], marks: &[u16], v: usize) -> Option<usize>
    requires rows_len { length rows.now ≡ row_length * length marks.now }
    requires closed { Closed (graph_of rows.now) (length marks.now) × (v < length marks.now) }
    ensures { IfSome result (λ d. (d < length marks.now) × (get_or marks.now d 0 ≡ 0)) }
{
    let row = row_at(rows, v);
    for j in 0..arity(row) {
        let d = usize::from(operand(row, j));
        if marks[d] == 0 {
            return Some(d);
        }
    }
    None
}

// Goes on to a wire without a mark: it is on the path.
fn enter(marks: &mut [u16], queue: &mut [u16], at: Descent, d: usize) -> Descent
    requires descending { Descending marks.old queue.old at × (length marks.old ≤ max_wires) }
    requires d_in_bounds { (d < length marks.old) × (get_or marks.old d 0 ≡ 0) }
    ensures kept { Descending marks.new queue.new result }
    ensures less { steps_left marks.new result < steps_left marks.old at }
{
    let depth = at.depth;
    marks[d] = (marks.len() - depth - at.held) as u16;
    queue[depth] = d as u16;
    Descent {
        depth: depth + 1,
        ..at
    }
}

// Gives a rank to the wires that were held last, to those whose mark is no higher than `own`, and says how many are left.
fn rank_held(marks: &mut [u16], queue: &[u16], held: usize, own: u16, rank: u16) -> usize
    requires marks_in_bounds { (length marks.old ≤ length queue.now) × (held ≤ length marks.old) × (0 < rank) }
    requires by_index { (i : ℕ) → i < length marks.old → length marks.old ≤ i + held → get_or queue.now i 0 < length marks.old }
    ensures { (result ≤ held) × (unmarked marks.new ≤ unmarked marks.old) }
{
    let n = marks.len();
    for i in n - held..n {
        let w = usize::from(queue[i]);
        if own < marks[w] {
            return n - i;
        }
        marks[w] = rank;
    }
    0
}

// Goes back from the last wire of the path. It is held if it leads back to a wire on the path; else it has a rank of its own, with those
// held since it was entered.
fn leave(rows: &[u16], marks: &mut [u16], queue: &mut [u16], at: Descent) -> Descent
    requires rows_len { length rows.now ≡ row_length * length marks.old }
    requires closed { Closed (graph_of rows.now) (length marks.old) × (length marks.old ≤ max_wires) }
    requires descending { Descending marks.old queue.old at × (0 < at.depth) }
    ensures kept { Descending marks.new queue.new result }
    ensures less { steps_left marks.new result < steps_left marks.old at }
{
    let depth = at.depth - 1;
    let held = at.held;
    let v = usize::from(queue[depth]);
    let own = marks[v];
    let high = highest_mark(rows, marks, v);
    if own < high {
        let back = marks.len() - held - 1;
        marks[v] = high;
        queue[back] = v as u16;
        return Descent {
            depth,
            held: held + 1,
            ..at
        };
    }
    let ranks = at.ranks + 1;
    let left = rank_held(marks, queue, held, own, ranks as u16);
    marks[v] = ranks as u16;
    Descent {
        depth,
        held: left,
        ranks,
    }
}

// Follows readings from the wire on the path until it is left. The path grows and shrinks, so the turns are not counted by an index.
fn rank_path(rows: &[u16], marks: &mut [u16], queue: &mut [u16], from: Descent) -> Descent
    requires rows_len { length rows.now ≡ row_length * length marks.old }
    requires closed { Closed (graph_of rows.now) (length marks.old) × (length marks.old ≤ max_wires) }
    requires descending { Descending marks.old queue.old from }
    ensures { Descending marks.new queue.new result }
{
    let mut at = from;
    while 0 < at.depth {
        let v = usize::from(queue[at.depth - 1]);
        at = match first_unmarked(rows, marks, v) {
            Some(d) => enter(marks, queue, at, d),
            None => leave(rows, marks, queue, at),
        };
    }
    at
}

// Ranks every index that is not listed: its mark ends as a guess at its rank. A listed one has a mark from the start, and is never entered.
pub fn rank_wires(rows: &[u16], marks: &mut [u16], queue: &mut [u16], listed: &[u16])
    requires rows_len { length rows.now ≡ row_length * length marks.old }
    requires closed { Closed (graph_of rows.now) (length marks.old) }
    requires marks_in_bounds { (length marks.old ≤ length queue.old) × (length marks.old ≤ max_wires) }
    requires listed_len { length listed.now ≡ length marks.old }
{
    lists::copy(listed, marks);
    let mut at = Descent::default();
    for start in 0..marks.len() {
        if marks[start] == 0 {
            at = enter(marks, queue, at, start);
            at = rank_path(rows, marks, queue, at);
        }
    }
}
