// Following a driver (document 01, 'Cells'): from a wire to the source of the switch that ends on it, as long as there is one.
ghost use Rattle.std.specs.Prelude.{◌≡◌, suc, ◌<◌, ◌≤◌, length, get_or};
ghost use Rattle.lists.specs.Tables.{zeros};
ghost use Rattle.ports.specs.Block.{Sized};
ghost use Rattle.ports.specs.Lengths.{ports};
ghost use Rattle.drivers.specs.declared.follow.Trace.TheVariants.{End};
ghost use Rattle.drivers.specs.Following.{Bounded, end_driver, traced, traced_marks, ring_lowest, driver_of};

use equations::drives::{Drive, drive_of};
use ports::size::Block;

// How many steps a walk goes without marks.
const SHORT: usize = 64;

// Where following a driver ends: an open wire; a constant, 0 or 1; a cell; or the lowest wire of a ring.
#[derive(Clone, Copy)]
pub enum Driver {
    Open(u16),
    Constant(u16, u8),
    Cell(u16),
    Ring(u16),
}

// A walk from source to source: it ends at a wire with none, or comes again to a wire where it was. Neither is a failure, so it is no Result.
#[derive(Clone, Copy)]
pub enum Trace {
    End(u16),
    Again(u16),
}

// The walk from a wire. It leaves the wires where it was marked.
fn walk(sources: &[u16], start: usize, marks: &mut [u16]) -> Trace
    requires { (start < length sources.now) × (length sources.now ≤ 65536) × Bounded sources.now ×
        (length marks.old ≡ length sources.now) }
    ensures answer { result ≡ traced sources.now (suc (length sources.now)) (zeros (length sources.now)) start }
    ensures marks { marks.new ≡ traced_marks sources.now (suc (length sources.now))
        (zeros (length sources.now)) start }
{
    marks.fill(0);
    let mut u = start;
    // Along links, as far as they lead: no count of turns is known.
    loop {
        let Some(source) = sources[u].checked_sub(1) else {
            return Trace::End(u as u16);
        };
        if marks[u] != 0 {
            return Trace::Again(u as u16);
        }
        marks[u] = 1;
        u = usize::from(source);
    }
}

// The lowest wire of the ring that a wire is on.
// Rules out: a wire on the way into the ring.
fn ring_lowest(sources: &[u16], u: usize, marks: &mut [u16]) -> usize
    requires { (u < length sources.now) × (length sources.now ≤ 65536) × Bounded sources.now × (length marks.old ≡ length sources.now) }
    ensures answer { result ≡ ring_lowest sources.now u }
{
    walk(sources, u, marks);
    marks
        .iter()
        .position(|mark| *mark != 0)
        .unwrap_or(marks.len())
}

// What stands at wire u, on which no switch ends.
fn end_driver(u: u16, d: Drive) -> Driver
    ensures { result ≡ end_driver u d }
{
    match d {
        Drive::Nothing => Driver::Open(u),
        Drive::Low => Driver::Constant(u, 0),
        Drive::High => Driver::Constant(u, 1),
        Drive::CellOut(_, _) | Drive::CellLout(_, _) | Drive::CellCout(_, _) | Drive::CarryMux(_) =>
            Driver::Cell(u),
    }
}

// Where a walk stands after at most `SHORT` steps. If that wire has no source, the walk ends there.
fn short_walk(sources: &[u16], start: usize) -> usize
    requires { (start < length sources.now) × Bounded sources.now }
    ensures within { result < length sources.now }
    ensures end { get_or sources.now result 0 ≡ 0 → traced sources.now (suc (length sources.now))
        (zeros (length sources.now)) start ≡ End result }
{
    let mut u = start;
    for _ in 0..SHORT {
        let Some(source) = sources[u].checked_sub(1) else {
            return u;
        };
        u = usize::from(source);
    }
    u
}

// Where following a wire ends, by a walk that marks where it was.
fn marked_driver(b: Block, sources: &[u16], wire: usize, marks: &mut [u16]) -> Driver
    requires { Sized b × (length sources.now ≡ ports b) × Bounded sources.now × (wire < ports b) × (length marks.old ≡ ports b) }
    ensures { result ≡ driver_of b sources.now wire }
{
    match walk(sources, wire, marks) {
        Trace::End(u) => end_driver(u, drive_of(b, u as u32)),
        Trace::Again(u) => Driver::Ring(ring_lowest(sources, usize::from(u), marks) as u16),
    }
}

// Where following a wire ends, with marks that are clear and stay so.
// Rules out: going on through carry_in_mux; the wire where a ring was met, which need not be its lowest.
pub fn clear_driver(b: Block, sources: &[u16], wire: usize, marks: &mut [u16]) -> Driver
    requires { Sized b × (length sources.now ≡ ports b) × Bounded sources.now × (wire < ports b) × (marks.old ≡ zeros (ports b)) }
    ensures answer { result ≡ driver_of b sources.now wire }
    ensures marks { marks.new ≡ zeros (ports b) }
{
    let u = short_walk(sources, wire);
    if sources[u] == 0 {
        return end_driver(u as u16, drive_of(b, u as u32));
    }
    let d = marked_driver(b, sources, wire, marks);
    marks.fill(0);
    d
}

// Where following a wire ends. `sources` has one more than the wire that a wire's switch comes from, 0 where it has none. `marks` is work room,
// and is left clear.
pub fn driver_of(b: Block, sources: &[u16], wire: usize, marks: &mut [u16]) -> Driver
    requires { Sized b × (length sources.now ≡ ports b) × Bounded sources.now × (wire < ports b) × (length marks.old ≡ ports b) }
    ensures answer { result ≡ driver_of b sources.now wire }
    ensures marks { marks.new ≡ zeros (ports b) }
{
    marks.fill(0);
    clear_driver(b, sources, wire, marks)
}
