// Which questions are about the grid.
ghost use Rattle.std.specs.Prelude.{◌≡◌, ℕ, ◌+◌, ◌%◌, ◌^◌, ◌<◌, ◌≤◌, ◌≢◌, ◌↔◌, IsTrue, MatchOption};
ghost use Rattle.speck.specs.Laws.{InPlace};

use crate::{Block, TOP_PLANE};
use head::Shape;
use speck::Part;

// A plane that may be asked about.
#[derive(Clone, Copy)]
pub(crate) struct Plane {
    number: u8,
    ghost low: { number ≤ 14 },
}

impl Plane {
    pub(crate) fn new(number: u8) -> Option<Plane>
        ensures { MatchOption result (14 < number) (λ p. p.number ≡ number) }
    {
        if number > TOP_PLANE {
            return None;
        }
        Some(Plane { number })
    }

    // The least magnitude that reaches the plane.
    pub(crate) fn least(self) -> u16
        ensures { result ≡ 2 ^ self.number }
    {
        1 << self.number
    }
}

// Whether 2^side places from `start` on lie among the first `total`, and `start` is a multiple of 2^side.
fn fits(start: usize, side: u8, total: usize) -> bool
    requires small { side ≤ 6 }
    requires room { 2 ^ side ≤ total }
    ensures { IsTrue result ↔ ((start + 2 ^ side ≤ total) × (start % 2 ^ side ≡ 0)) }
{
    let extent = 1 << side;
    start <= total - extent && start.is_multiple_of(extent)
}

impl Block {
    // Whether it lies wholly inside the grid, its row and column multiples of its side.
    pub(crate) fn is_in_place(self, shape: Shape) -> bool
        ensures { IsTrue result ↔ InPlace shape.exponent (Part.Block self.side self.row self.column) }
    {
        if self.side > shape.exponent() {
            return false;
        }
        fits(self.row, self.side, shape.side()) && fits(self.column, self.side, shape.side())
    }
}

// The exponent of a square's side, if it is a power of two and the grid has cells outside the square.
pub(crate) fn inner_exponent(shape: Shape, inner: usize) -> Option<u8>
    ensures { MatchOption result ((x : ℕ) → x < shape.exponent → inner ≢ 2 ^ x) (λ x. (x < shape.exponent) × (inner ≡ 2 ^ x)) }
{
    (0..shape.exponent()).find(|x| inner == 1 << *x)
}
