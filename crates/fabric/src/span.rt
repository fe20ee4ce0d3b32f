// Spans (document 01, 'Joins'): wires that run from edge to edge along a row or a column of tiles and change their name in each tile.
// Nothing here knows how many spans there are.
ghost use Rattle.std.specs.Prelude.{◌≡◌, ◌≤◌, ◌<◌, ◌+◌, ◌-◌, ℕ, Bool, leb, ltb, Option, IfSome, if◌then◌else◌};
ghost use Rattle.fabric.specs.Span.{flip, names, walk, Proper, westward, southward};

// Names 0 up to through of a tile's near side go on to its far side, shift higher after the crossing. near and far are the
// ports of name 0 on the two sides.
#[derive(Clone, Copy)]
pub struct Span {
    pub through: u32,
    pub shift: u32,
    pub near: u32,
    pub far: u32,
}

// An edge of a row or a column of tiles, counted from the block's rim, and the name that a wire has there.
#[derive(Clone, Copy)]
pub struct Edge {
    pub at: u32,
    pub name: u32,
}

// The crossing partner of name k: "k with its lowest bit flipped".
pub fn crossing(k: u32) -> u32
    ensures { result ≡ flip k }
{
    k ^ 1
}

// The name at the edge before, to the west, of a wire with name k, where it goes on to that edge.
#[tactic(auto, using(crate::proofs::FlipLaws::flip_le))]
fn to_west(s: Span, k: u32) -> Option<u32>
    requires { Proper s × (k < names s) }
    ensures step { result ≡ (if leb s.shift k then Some (flip (k - s.shift)) else None) }
    ensures stays { IfSome result (λ j. j < names s) }
{
    k.checked_sub(s.shift).map(crossing)
}

// The same to the south.
#[tactic(auto, using(crate::proofs::FlipLaws::flip_lt))]
fn to_south(s: Span, k: u32) -> Option<u32>
    requires { Proper s × (k < names s) }
    ensures step { result ≡ (if ltb k s.through then Some (flip k + s.shift) else None) }
    ensures stays { IfSome result (λ j. j < names s) }
{
    if k < s.through {
        Some(crossing(k) + s.shift)
    } else {
        None
    }
}

// From edge to edge, as far as the wire with name k at edge e goes. `before` says which name it has at the edge before, where it goes on to that.
fn walk<F: Fn(Span, u32) -> Option<u32>>(s: Span, e: u32, k: u32, before: F) -> Edge
    requires name { k < names s }
    requires callable { (j : ℕ) → j < names s → F.pre before s j }
    requires stays { (j i : ℕ) → j < names s → F.post before s j (Some i) → i < names s }
    ensures within { (result.at ≤ e) × (result.name < names s) }
    ensures walked { (on : ℕ → Bool) (next : ℕ → ℕ) →
        ((j : ℕ) (r : Option ℕ) → j < names s → F.post before s j r → r ≡ (if on j then Some (next j) else None)) →
        result ≡ walk on next e k }
{
    let mut name = k;
    for at in (1..=e).rev() {
        let Some(next) = before(s, name) else {
            return Edge { at, name };
        };
        name = next;
    }
    Edge { at: 0, name }
}

// West from edge to edge.
pub fn go_west(s: Span, e: u32, k: u32) -> Edge
    requires { Proper s × (k < names s) }
    ensures { (result ≡ westward flip s e k) × (result.at ≤ e) × (result.name < names s) }
{
    walk(s, e, k, to_west)
}

// South from edge to edge.
pub fn go_south(s: Span, e: u32, k: u32) -> Edge
    requires { Proper s × (k < names s) }
    ensures { (result ≡ southward flip s e k) × (result.at ≤ e) × (result.name < names s) }
{
    walk(s, e, k, to_south)
}
