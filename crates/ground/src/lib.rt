// Grounds: what answers the sender's questions about a grid of coefficients.
#![tactic(auto)]

ghost use Rattle.std.specs.Prelude.{◌≡◌, ℕ, ◌↔◌, IsTrue, ℤ};
ghost use Rattle.head.specs.declared.Head.{Head};
ghost use Rattle.transform.specs.Planes.{PlaneCount};
ghost use Rattle.ground.specs.Tells.{BlockTells, RestTells, bit_told, sign_told};

use head::Head;

mod bare;
mod peak;
mod questions;
mod tiles;

pub use bare::BareGrid;
pub use peak::PeakGrid;

// The highest plane that may be asked about.
pub const TOP_PLANE: u8 = 14;

// A block of cells: its top left cell, and the exponent of its side.
#[derive(Clone, Copy, PartialEq, Eq, Debug)]
pub struct Block {
    pub row: usize,
    pub column: usize,
    pub side: u8,
}

// Whatever answers the sender's questions. Its meaning is a head and a grid of numbers, of which the head counts the bit planes. Every answer follows from that meaning, for any question at all.
pub trait Ground {
    ghost headed: { Self → Head };

    ghost grid: { Self → ℕ → ℕ → ℤ };

    fn head(&self) -> Head
        ensures { result ≡ headed self.now };

    // Has some cell of the block a magnitude of 2^plane or more?
    fn block_reaches(&self, block: Block, plane: u8) -> bool
        ensures { IsTrue result ↔ BlockTells (headed self.now).shape.exponent (grid self.now) block.row block.column block.side plane };

    // Has some cell outside the top left square of this side?
    fn rest_reaches(&self, inner: usize, plane: u8) -> bool
        ensures { IsTrue result ↔ RestTells (headed self.now).shape.exponent (grid self.now) inner plane };

    fn is_negative(&self, row: usize, column: usize) -> bool
        ensures { result ≡ sign_told (headed self.now).shape.exponent (grid self.now) row column };

    // Is the cell's bit of the plane 1?
    fn has_bit(&self, row: usize, column: usize, plane: u8) -> bool
        ensures { result ≡ bit_told (headed self.now).shape.exponent (grid self.now) row column plane };

    ghost counted: { (g : Self) → PlaneCount (headed g).shape.exponent (grid g) (headed g).planes };
}
