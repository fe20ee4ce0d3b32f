// The order of the rows: always the lowest wire that is not listed and waits for none. A wire that is not ready waits for one that it reads,
// and is looked at again only when that one is listed.
ghost use Rattle.std.specs.Prelude.{◌≡◌, ℕ, ◌*◌, ◌<◌, ◌≤◌, ◌++◌, length, drop, get_or, MatchOption};
ghost use Rattle.netlist.specs.Graph.{Closed};
ghost use Rattle.netlist.specs.Order.{order, order_marks};
ghost use Rattle.netlist.specs.Rows.{row_length, graph_of, operand_of, arity_of};
ghost use Rattle.netlist.specs.Marks.{only_listed, max_wires};
ghost use Rattle.scheduling.specs.Due.{Early, Taken, Resting, Found, Asleep, Woken};
ghost use Rattle.scheduling.specs.Waiting.{StuckRow};

use bitset::Bitset;
use netlist::row::{Row, arity, operand, row_at};

// Which wires are due to be looked at: those that were woken, and those from `from` on, which were never looked at.
#[derive(Drop)]
struct Due {
    woken: Bitset,
    from: usize,
}

impl Due {
    // Takes the lowest of n wires that is due.
    // Rules out: going on from `from` while a wire below it is due.
    fn take(&mut self, n: usize) -> Option<usize>
        requires { Early n self.old × (n ≤ max_wires) }
        ensures { MatchOption result (Taken n self.old self.new n) (λ w. (w < n) × Taken n self.old self.new w) }
    {
        match self.woken.lowest() {
            Some(w) => {
                self.woken.remove(w);
                Some(w)
            }
            None if self.from < n => {
                self.from += 1;
                Some(self.from - 1)
            }
            None => None,
        }
    }
}

// The lowest wire that is not listed and reads only wires that are: the search through the wires that are due and their operands is labelled and
// nested, as document 01 asks for by name, and is left at the first wire whose operands are all listed. Any other waits for its first operand that is not.
// Rules out: a wire that reads one not listed; a later one where a lower is ready.
fn next_ready(rows: &[u16], marks: &mut [u16], links: &mut [u16], due: &mut Due) -> Option<usize>
    requires rows_len { length rows.now ≡ row_length * length marks.old }
    requires closed { Closed (graph_of rows.now) (length marks.old) × (length marks.old ≤ max_wires) }
    requires resting { Resting (graph_of rows.now) (length marks.old) marks.old links.old due.old }
    ensures { MatchOption result
        (Found (graph_of rows.now) (length marks.old) marks.old marks.new links.new due.new (length marks.old))
        (λ w. (w < length marks.old) × Found (graph_of rows.now) (length marks.old) marks.old marks.new links.new due.new w) }
{
    let n = marks.len();
    'search: while let Some(w) = due.take(n) {
        let row = row_at(rows, w);
        if marks[w] != 1 && row.kind != 0 {
            for j in 0..arity(row) {
                let d = usize::from(operand(row, j));
                if marks[d] != 1 {
                    links[w] = marks[d];
                    marks[d] = (w + 2) as u16;
                    continue 'search;
                }
            }
            return Some(w);
        }
    }
    None
}

// The wires of a chain are due again. It is walked along the links.
// Rules out: leaving the last one asleep.
fn wake(links: &[u16], woken: &mut Bitset, mark: u16)
    requires { Asleep links.now mark woken.old }
    ensures { Woken links.now mark woken.old woken.new }
{
    let mut k = usize::from(mark);
    while 1 < k {
        let w = k - 2;
        woken.insert(w);
        k = usize::from(links[w]);
    }
}

// Writes the wires to `out` in the order, and says how many there are. `marks` ends with a 1 for each of them and no other 1; what `links` holds
// does not matter.
pub fn list_wires(rows: &[u16], marks: &mut [u16], links: &mut [u16], out: &mut [u16]) -> usize
    requires rows_len { length rows.now ≡ row_length * length marks.old }
    requires closed { Closed (graph_of rows.now) (length marks.old) }
    requires links_len { (length links.old ≡ length marks.old) × (length marks.old ≤ length out.old) × (length marks.old ≤ max_wires) }
    ensures count { result ≡ length (order (graph_of rows.now) (length marks.old)) }
    ensures out { out.new ≡ order (graph_of rows.now) (length marks.old) ++ drop result out.old }
    ensures marks { only_listed marks.new ≡ order_marks (graph_of rows.now) (length marks.old) }
{
    marks.fill(0);
    let mut due = Due {
        woken: Bitset::new(),
        from: 0,
    };
    let mut count = 0;
    while let Some(w) = next_ready(rows, marks, links, &mut due) {
        let mark = marks[w];
        marks[w] = 1;
        wake(links, &mut due.woken, mark);
        out[count] = w as u16;
        count += 1;
    }
    count
}
