// Which ports a switch may end on and come from (document 01, 'The routing table').
ghost use Rattle.std.specs.Prelude.{◌≡◌};
ghost use Rattle.routing.specs.LogicTile.{is_destination, is_source};

use ports::lengths::PORTS_PER_TILE;

// A switch may end on this port.
// Rules out: refusing the cells' global signals; taking an output of a cell.
#[tactic(auto, unfolding(crate::specs::LogicTile::is_destination))]
pub fn is_destination(port: u16) -> bool
    ensures { result ≡ is_destination port }
{
    let q = u32::from(port);
    q < ports::OUT || (ports::CLK <= q && q <= ports::S_R)
}

// A switch may come from this port.
// Rules out: taking a cell's input, or a number that is no port.
#[tactic(auto, unfolding(crate::specs::LogicTile::is_source))]
pub fn is_source(port: u16) -> bool
    ensures { result ≡ is_source port }
{
    let q = u32::from(port);
    q < ports::IN || (q < PORTS_PER_TILE && !is_destination(port))
}
