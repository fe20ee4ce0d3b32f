// The rows of the contentions, wire by wire, from the chains.
ghost use Rattle.std.specs.Prelude.{◌≡◌, ◌+◌, ◌*◌, ◌<◌, ◌≤◌, [], ◌∷◌, length};
ghost use Rattle.std.proofs.lemmas.List.Edits.{sets};
ghost use Rattle.lists.specs.Search.{count_below};
ghost use Rattle.lists.specs.Listing.{rows_where, zero_filled};
ghost use Rattle.ports.specs.Block.{Sized};
ghost use Rattle.ports.specs.Lengths.{ports};
ghost use Rattle.equations.specs.Switches.{switches, tile_of, group_in};
ghost use Rattle.equations.specs.WireRows.{ends_on};
ghost use Rattle.contention.specs.Contentions.{row_length, contends, switch_row, contention_count, contentions};
ghost use Rattle.contention.specs.Chains.{Chained};

use crate::chains::first_links;
use ports::lengths::MAX_GROUPS;
use ports::size::Block;

pub const ROW_LENGTH: usize = 3;

// The row of a switch that ends on a wire, put in from `at` on.
fn put_row(list: &mut [u16], at: usize, wire: u16, s: usize)
    requires { (at + row_length ≤ length list.old) × (s < 32768) }
    ensures { list.new ≡ sets list.old at (wire ∷ tile_of s ∷ group_in s ∷ []) }
{
    let row = [wire, (s / MAX_GROUPS) as u16, (s % MAX_GROUPS) as u16];
    list[at..at + ROW_LENGTH].copy_from_slice(&row);
}

// A row for each switch that ends on a wire, put in from `from` on; the answer is where they end.
fn list_chain(
    b: Block,
    table: &[u16],
    st: &[u16],
    heads: &[u16],
    nexts: &[u16],
    w: usize,
    list: &mut [u16],
    from: usize,
) -> usize
    requires { Sized b × Chained b table.now st.now 0 heads.now nexts.now × (w < ports b) ×
        (from + row_length * count_below (ends_on b table.now st.now w) (switches b) ≤ length list.old) }
    ensures end { result ≡ from + row_length * count_below (ends_on b table.now st.now w) (switches b) }
    ensures list { list.new ≡ sets list.old from
        (rows_where (ends_on b table.now st.now w) (switch_row w) (switches b)) }
{
    let mut at = from;
    let mut link = usize::from(heads[w]);
    // a walk along links, which no range counts
    while link != 0 {
        put_row(list, at, w as u16, link - 1);
        link = usize::from(nexts[link - 1]);
        at += ROW_LENGTH;
    }
    at
}

// The rows of a wire, put in from `from` on; the answer is where they end.
fn list_wire(
    b: Block,
    table: &[u16],
    st: &[u16],
    heads: &[u16],
    nexts: &[u16],
    w: usize,
    list: &mut [u16],
    from: usize,
) -> usize
    requires { Sized b × Chained b table.now st.now 0 heads.now nexts.now × (w < ports b) ×
        (from + row_length * count_below (contends b table.now st.now w) (switches b) ≤ length list.old) }
    ensures end { result ≡ from + row_length * count_below (contends b table.now st.now w) (switches b) }
    ensures list { list.new ≡ sets list.old from
        (rows_where (contends b table.now st.now w) (switch_row w) (switches b)) }
{
    let n = first_links(b, table, st, heads, nexts, 0, w);
    if n < 2 {
        from
    } else {
        list_chain(b, table, st, heads, nexts, w, list, from)
    }
}

// All rows, by wire and switch, and zeros behind them.
pub fn list_rows(
    b: Block,
    table: &[u16],
    st: &[u16],
    heads: &[u16],
    nexts: &[u16],
    list: &mut [u16],
)
    requires { Sized b × Chained b table.now st.now 0 heads.now nexts.now ×
        (row_length * contention_count b table.now st.now ≤ length list.old) }
    ensures { list.new ≡ zero_filled (length list.old) (contentions b table.now st.now) }
{
    list.fill(0);
    let mut at = 0;
    for w in 0..heads.len() {
        at = list_wire(b, table, st, heads, nexts, w, list, at);
    }
}
