// A range of a tile's ports: ports q, q + 1, .. of the tile (x, y), `count` of them.
ghost use Rattle.std.specs.Prelude.{◌≡◌, ◌+◌, ◌<◌, ℕ, take};
ghost use Rattle.ports.specs.Block.{Sized, port};
ghost use Rattle.fabric.specs.Wire.{wire_of};
ghost use Rattle.wiring.specs.Fill.{Wired, Range, Copies, Crosses, Numbers, Owns};

use fabric::span::crossing;
use ports::port_number;
use ports::size::Block;

// The ports of a range have the wires that `wire` finds for 0, 1, .. among the wires of the ports before them.
fn fill<F: Fn(&[u16], usize) -> u16>(
    b: Block,
    wires: &mut [u16],
    x: u32,
    y: u32,
    q: u32,
    count: u32,
    wire: F,
)
    requires range { Sized b × Range b x y q count × Wired b (port b x y q) wires.old }
    requires callable { (done : _) (k : ℕ) → done.now ≡ take (port b x y q) wires.old → k < count → F.pre wire done k }
    requires finds { (done : _) (k w : ℕ) → done.now ≡ take (port b x y q) wires.old → k < count → F.post wire done k w
        → w ≡ wire_of b (port b x y (q + k)) }
    ensures { Wired b (port b x y (q + count)) wires.new }
{
    let (done, rest) = wires.split_at_mut(port_number(b, x, y, q) as usize);
    for (k, to) in rest[..count as usize].iter_mut().enumerate() {
        *to = wire(done, k);
    }
}

// Ports q, q + 1, .. of the tile (x, y) have the wires of ports p, p + 1, .. of the tile (u, v).
pub fn copy(b: Block, wires: &mut [u16], u: u32, v: u32, p: u32, x: u32, y: u32, q: u32, count: u32)
    requires { Sized b × Copies b u v p x y q count × Wired b (port b x y q) wires.old }
    ensures { Wired b (port b x y (q + count)) wires.new }
{
    let from = port_number(b, u, v, p) as usize;
    fill(b, wires, x, y, q, count, |done, k| done[from + k]);
}

// The same with the crossing between.
pub fn cross(
    b: Block,
    wires: &mut [u16],
    u: u32,
    v: u32,
    p: u32,
    x: u32,
    y: u32,
    q: u32,
    count: u32,
)
    requires { Sized b × Crosses b u v p x y q count × Wired b (port b x y q) wires.old }
    ensures { Wired b (port b x y (q + count)) wires.new }
{
    let from = port_number(b, u, v, p) as usize;
    fill(b, wires, x, y, q, count, |done, k| {
        done[from + crossing(k as u32) as usize]
    });
}

// Ports q, q + 1, .. of the tile (x, y) have the wires first, first + 1, ..
pub fn number(b: Block, wires: &mut [u16], first: u32, x: u32, y: u32, q: u32, count: u32)
    requires { Sized b × Numbers b first x y q count × Wired b (port b x y q) wires.old }
    ensures { Wired b (port b x y (q + count)) wires.new }
{
    fill(b, wires, x, y, q, count, |_, k| (first as usize + k) as u16);
}

// Ports q, q + 1, .. of the tile (x, y) are the first of their wires.
pub fn own(b: Block, wires: &mut [u16], x: u32, y: u32, q: u32, count: u32)
    requires { Sized b × Owns b x y q count × Wired b (port b x y q) wires.old }
    ensures { Wired b (port b x y (q + count)) wires.new }
{
    number(b, wires, port_number(b, x, y, q), x, y, q, count);
}
