// The quadtree over a grid, and where each block's peak is kept.
ghost use Rattle.std.specs.Prelude.{◌≡◌, suc, ◌+◌, ◌*◌, ◌^◌, ◌<◌, ◌≤◌};
ghost use Rattle.ground.specs.Peaks.{above};

// How many blocks lie at smaller depths; a grid of side 2^m has blocks of depths 0 to m.
const ABOVE: [usize; 8] = [0, 1, 5, 21, 85, 341, 1365, 5461];

// How many blocks lie at smaller depths than `depth`.
pub(crate) fn above_depth(depth: u8) -> usize
    requires { depth ≤ 7 }
    ensures { result ≡ above depth }
{
    ABOVE[usize::from(depth)]
}

// A block of the quadtree: how often the grid was halved, and the block's row and column in units of its side.
#[derive(Clone, Copy)]
pub(crate) struct Tile {
    pub(crate) depth: u8,
    pub(crate) row: usize,
    pub(crate) column: usize,
    ghost deep: { depth ≤ 6 },
    ghost row_in: { row < 2 ^ depth },
    ghost column_in: { column < 2 ^ depth },
}

impl Tile {
    // Where the peak of the block is kept.
    pub(crate) fn place(self) -> usize
        ensures value { result ≡ above self.depth + (self.row * 2 ^ self.depth + self.column) }
        ensures within { result < above (suc self.depth) }
    {
        above_depth(self.depth) + (self.row * (1 << self.depth) + self.column)
    }
}
