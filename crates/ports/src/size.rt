// The size of a block, and the block as joins see it (document 01, 'The block and its sources'). Calls whose answer rests on no join take a
// size, the others a block.
ghost use Rattle.std.specs.Prelude.{◌≡◌, ◌≤◌};
ghost use Rattle.ports.specs.Block.{size_of, tile_count, Allowed, allowed, sized};

// W tiles wide and h tiles high.
#[derive(Clone, Copy, PartialEq, Eq)]
pub struct Size {
    pub w: u32,
    pub h: u32,
}

// All that joins depend on. East is 1 where the column to the east of the block is logic or RAM, else 0.
#[derive(Clone, Copy, PartialEq, Eq)]
pub struct Block {
    pub w: u32,
    pub h: u32,
    pub east: u32,
}

pub fn size_of(b: Block) -> Size
    ensures { result ≡ size_of b }
{
    Size { w: b.w, h: b.h }
}

// Whether W and H are 1 to 8: ground 1 of every call.
pub fn is_allowed(s: Size) -> bool
    ensures { result ≡ allowed s }
{
    (1..=8).contains(&s.w) && (1..=8).contains(&s.h)
}

// The same of a block, whose byte for the east column is 0 or 1.
pub fn is_sized(b: Block) -> bool
    ensures { result ≡ sized b }
{
    b.east < 2 && is_allowed(size_of(b))
}

// How many tiles there are.
pub fn tile_count(s: Size) -> usize
    requires { Allowed s }
    ensures { (result ≡ tile_count s) × (result ≤ 64) }
{
    (s.h * s.w) as usize
}
