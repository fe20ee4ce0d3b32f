// Ranks of the wires that are not listed: numbers such that none of them reads another of a higher rank. One that reads only lower and listed
// ones is on no loop. The check of the ranks reads no row of a listed wire.
ghost use Rattle.std.specs.Prelude.{◌≡◌, ℕ, ◌+◌, ◌*◌, ◌<◌, ◌≤◌, true, length, get_or, MatchOption};
ghost use Rattle.netlist.specs.Graph.{Closed, Reads};
ghost use Rattle.netlist.specs.Marks.{Unlisted};
ghost use Rattle.netlist.specs.Rows.{row_length, graph_of};
ghost use Rattle.loops.specs.Ranks.{Ranked, FirstLevel};

use netlist::row::{arity, operand, row_at};

// The highest mark of what v reads, or 0.
pub fn highest_mark(rows: &[u16], marks: &[u16], v: usize) -> u16
    requires rows_len { length rows.now ≡ row_length * length marks.now }
    requires closed { Closed (graph_of rows.now) (length marks.now) × (v < length marks.now) }
    ensures { (d : ℕ) → Reads (graph_of rows.now) v d → get_or marks.now d 0 ≤ result }
{
    let row = row_at(rows, v);
    let mut high = 0;
    for j in 0..arity(row) {
        high = high.max(marks[usize::from(operand(row, j))]);
    }
    high
}

// The highest rank of what v reads and is not listed, or 0. One function for both, with a closure for the test, would need a longer contract
// than the few lines that they share.
fn highest_rank(rows: &[u16], ranks: &[u16], listed: &[u16], v: usize) -> u16
    requires rows_len { length rows.now ≡ row_length * length ranks.now }
    requires closed { Closed (graph_of rows.now) (length ranks.now) × (v < length ranks.now) }
    requires listed_len { length listed.now ≡ length ranks.now }
    ensures { (d : ℕ) → Unlisted listed.now d → Reads (graph_of rows.now) v d → get_or ranks.now d 0 ≤ result }
{
    let row = row_at(rows, v);
    let mut high = 0;
    for j in 0..arity(row) {
        let d = usize::from(operand(row, j));
        if listed[d] == 0 {
            high = high.max(ranks[d]);
        }
    }
    high
}

// Whether no wire reads one of a higher rank, among those that are not listed.
pub fn is_ranked(rows: &[u16], ranks: &[u16], listed: &[u16]) -> bool
    requires rows_len { length rows.now ≡ row_length * length ranks.now }
    requires closed { Closed (graph_of rows.now) (length ranks.now) }
    requires listed_len { length listed.now ≡ length ranks.now }
    ensures { result ≡ true → Ranked (graph_of rows.now) listed.now ranks.now }
{
    (0..ranks.len()).all(|w| listed[w] != 0 || highest_rank(rows, ranks, listed, w) <= ranks[w])
}

// The lowest wire that is not listed and does not read only lower ranks.
pub fn first_level(rows: &[u16], ranks: &[u16], listed: &[u16]) -> Option<usize>
    requires rows_len { length rows.now ≡ row_length * length ranks.now }
    requires closed { Closed (graph_of rows.now) (length ranks.now) }
    requires listed_len { length listed.now ≡ length ranks.now }
    ensures { MatchOption result (FirstLevel (graph_of rows.now) listed.now ranks.now (length ranks.now))
        (λ w. (w < length ranks.now) × FirstLevel (graph_of rows.now) listed.now ranks.now w) }
{
    (0..ranks.len()).find(|w| listed[*w] == 0 && ranks[*w] <= highest_rank(rows, ranks, listed, *w))
}
