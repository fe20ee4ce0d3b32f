// The part of a chip that the caller names.
ghost use Rattle.std.specs.Prelude.{◌≡◌, ◌+◌, ◌/◌, ◌%◌, ◌<◌, ◌≤◌, true, false, MatchOption};
ghost use Rattle.asc.specs.Area.{area, area_at, tiles_of, sized};

use ports::size::Size;

// A block on a chip: its size and its south-west corner, where ground 1 is not given.
#[derive(Clone, Copy)]
pub struct Site {
    w: u32,
    h: u32,
    x: u32,
    y: u32,
    ghost is_sized: { sized (area w h x y) ≡ true },
}

impl Site {
    ghost use Rattle.asc.specs.Next.{inside, tile_at};
    ghost use Rattle.asc.specs.Site.{area_of};

    // Ground 1: W and H are 1 to 8, and the block does not reach past 255.
    // Rules out: a corner that wraps around.
    #[tactic(auto, unfolding(crate::specs::Area::sized))]
    pub fn new(s: Size, x: u32, y: u32) -> Option<Self>
        ensures { MatchOption result (sized (area_at s x y) ≡ false) (λ site. area_of site ≡ area_at s x y) }
    {
        let Size { w, h } = s;
        if matches!(w, 1..=8) && matches!(h, 1..=8) && x <= 256 - w && y <= 256 - h {
            Some(Site { w, h, x, y })
        } else {
            None
        }
    }

    #[tactic(auto, using(crate::proofs::AreaLaws::sized_of, crate::proofs::AreaLaws::tiles_few))]
    pub fn tiles(self) -> usize
        ensures { (result ≡ tiles_of (area_of self)) × (result ≤ 64) }
    {
        (self.h * self.w) as usize
    }

    // The index of the tile at tx, ty of the chip, if it is in the block.
    #[tactic(auto, unfolding(crate::specs::Area::sized, crate::specs::Next::inside))]
    pub fn index(self, tx: u32, ty: u32) -> Option<usize>
        ensures { MatchOption result (inside (area_of self) tx ty ≡ false)
            (λ t. (inside (area_of self) tx ty ≡ true) × (t ≡ tile_at (area_of self) tx ty) × (t < tiles_of (area_of self)) × (t < 64)) }
    {
        let across = tx.checked_sub(self.x)?;
        let up = ty.checked_sub(self.y)?;
        if across < self.w && up < self.h {
            Some((up * self.w + across) as usize)
        } else {
            None
        }
    }

    // Where tile t stands on the chip.
    #[tactic(auto, using(crate::proofs::AreaLaws::sized_of, crate::proofs::AreaLaws::tiles_few, crate::proofs::LengthLaws::tile_stands))]
    pub fn place(self, t: usize) -> (u32, u32)
        requires { t < tiles_of (area_of self) }
        ensures across { result.0 ≡ self.x + t % self.w }
        ensures up { result.1 ≡ self.y + t / self.w }
        ensures few { (result.0 < 256) × (result.1 < 256) }
    {
        let t = t as u32;
        (self.x + t % self.w, self.y + t / self.w)
    }
}
