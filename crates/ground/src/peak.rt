// The peak grid: a ground that keeps the peak of every block, so that a block is answered by one look.
ghost use Rattle.std.specs.Prelude.{◌≡◌, ℕ, suc, ◌+◌, ◌-◌, ◌*◌, ◌^◌, ◌<◌, ◌≤◌, [], ◌∷◌, length, IfOk, vec_len, unsigned_abs};
ghost use Rattle.speck.specs.Grid.{any_significant, significant};
ghost use Rattle.heights.specs.Coefficients.{coefficients_of};
ghost use Rattle.ground.specs.Frames.{GroundOf};
ghost use Rattle.ground.specs.Peaks.{Filled, Node, Right, above, peak_of, tile_of};
ghost use Rattle.std.proofs.Common.{rules};

use crate::bare::BareGrid;
use crate::questions::{Plane, inner_exponent};
use crate::tiles::{Tile, above_depth};
use crate::{Block, Ground};
use frame::ClosedFrame;
use head::Head;
use heights::Coefficients;
use heights::undoing::CoefficientGrid;
use speck::Part;
use std::alloc::{AllocError, Global};

// The peaks lie in one list, and not in a tree of boxes, so that a block is answered by one look.
#[derive(Drop)]
pub struct PeakGrid {
    bare: BareGrid,
    peaks: Vec<u16>,
    ghost whole: { vec_len peaks ≡ above (suc bare.head.shape.exponent) },
    ghost right: { ((b : Node bare.head.shape.exponent) → Right bare.head.shape.exponent (coefficients_of bare.coefficients) peaks.items b.side b.row b.column) },
}

// Fills in the peaks of a block and of all blocks within it, and answers the block's. The block's numbers are handed one by one: as a `Tile`, which is passed in memory, a grid of side 64 takes 33 µs in place of 22, where 24 were enough before.
fn fill(peaks: &mut [u16], coefficients: &Coefficients, depth: u8, row: usize, column: usize) -> u16
    requires deep { depth ≤ coefficients.now.shape.exponent }
    requires row_in { row < 2 ^ depth }
    requires column_in { column < 2 ^ depth }
    requires room { length peaks.old ≡ above (suc coefficients.now.shape.exponent) }
    ensures value { result ≡ peak_of (coefficients_of coefficients.now) (coefficients.now.shape.exponent - depth) row column }
    ensures filled { Filled coefficients.now.shape.exponent (coefficients_of coefficients.now) (coefficients.now.shape.exponent - depth) row column peaks.old peaks.new }
{
    let peak = if depth == coefficients.shape().exponent() {
        magnitude(coefficients, row, column)
    } else {
        let (below, top, left) = (depth + 1, 2 * row, 2 * column);
        let a = fill(peaks, coefficients, below, top, left);
        let b = fill(peaks, coefficients, below, top, left + 1);
        let c = fill(peaks, coefficients, below, top + 1, left);
        let d = fill(peaks, coefficients, below, top + 1, left + 1);
        a.max(b).max(c.max(d))
    };
    let tile = Tile { depth, row, column };
    peaks[tile.place()] = peak;
    peak
}

// The magnitude of a cell of the grid. A cast that is proved to lose nothing, where `try_from` would have a case that never comes.
fn magnitude(coefficients: &Coefficients, row: usize, column: usize) -> u16
    requires row_in { row < 2 ^ coefficients.now.shape.exponent }
    requires column_in { column < 2 ^ coefficients.now.shape.exponent }
    ensures { result ≡ unsigned_abs (coefficients_of coefficients.now row column) }
{
    let side = coefficients.shape().side();
    coefficients.values()[row * side + column].unsigned_abs() as u16
}

impl PeakGrid {
    // The ground of a closed frame's heights.
    pub fn of(frame: &ClosedFrame, heap: Global) -> Result<PeakGrid, AllocError>
        ensures { IfOk result (λ p. GroundOf frame.now p.bare.head (coefficients_of p.bare.coefficients)) }
    {
        PeakGrid::over(Coefficients::of(frame, heap)?, heap)
    }

    // The ground whose grid these coefficients are. `BareGrid::over` takes no memory and cannot fail, so neither `over` nor `of`, which is one line over it, is a function of a trait.
    pub fn over(coefficients: Coefficients, heap: Global) -> Result<PeakGrid, AllocError>
        ensures { IfOk result (λ p. (p.bare.coefficients ≡ coefficients) × (p.bare.head.shape ≡ coefficients.shape)) }
    {
        let exponent = coefficients.shape().exponent();
        let mut peaks = vec![in heap; 0u16; above_depth(exponent + 1)]?;
        fill(peaks.as_mut_slice(), &coefficients, 0, 0, 0);
        let bare = BareGrid::over(coefficients);
        Ok(PeakGrid { bare, peaks })
    }

    pub fn coefficients(&self) -> &Coefficients
        ensures { result.now ≡ self.now.bare.coefficients }
    {
        self.bare.coefficients()
    }

    // Whether a block of the grid reaches the plane.
    fn look(&self, tile: Tile, plane: Plane) -> bool
        requires { tile.depth ≤ self.now.bare.head.shape.exponent }
        ensures { result ≡ significant (coefficients_of self.now.bare.coefficients) plane.number (tile_of self.now.bare.head.shape.exponent tile.depth tile.row tile.column) }
    {
        self.peaks[tile.place()] >= plane.least()
    }

    // The same of the three blocks beside, below and across the top left one of their side.
    fn ring_reaches(&self, side: u8, plane: Plane) -> bool
        requires { side < self.now.bare.head.shape.exponent }
        ensures { result ≡ any_significant (coefficients_of self.now.bare.coefficients) plane.number (Part.Block side 0 (2 ^ side) ∷ Part.Block side (2 ^ side) 0 ∷ Part.Block side (2 ^ side) (2 ^ side) ∷ []) }
    {
        let depth = self.head().shape().exponent() - side;
        let beside = Tile {
            depth,
            row: 0,
            column: 1,
        };
        let below = Tile {
            depth,
            row: 1,
            column: 0,
        };
        let across = Tile {
            depth,
            row: 1,
            column: 1,
        };
        self.look(beside, plane) || self.look(below, plane) || self.look(across, plane)
    }
}

impl Ground for PeakGrid {
    ghost headed = { λ p. p.bare.head };

    ghost grid = { λ p. coefficients_of p.bare.coefficients };

    ghost counted = { Prim.search rules };

    fn head(&self) -> Head {
        self.bare.head()
    }

    fn block_reaches(&self, block: Block, plane: u8) -> bool {
        let shape = self.head().shape();
        let Some(plane) = Plane::new(plane) else {
            return false;
        };
        if !block.is_in_place(shape) {
            return false;
        }
        let tile = Tile {
            depth: shape.exponent() - block.side,
            row: block.row >> block.side,
            column: block.column >> block.side,
        };
        self.look(tile, plane)
    }

    fn rest_reaches(&self, inner: usize, plane: u8) -> bool {
        let shape = self.head().shape();
        let (Some(plane), Some(exponent)) = (Plane::new(plane), inner_exponent(shape, inner)) else {
            return false;
        };
        (exponent..shape.exponent()).any(|side| self.ring_reaches(side, plane))
    }

    fn is_negative(&self, row: usize, column: usize) -> bool {
        self.bare.is_negative(row, column)
    }

    fn has_bit(&self, row: usize, column: usize, plane: u8) -> bool {
        self.bare.has_bit(row, column, plane)
    }
}
