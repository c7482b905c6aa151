// The bare grid: a ground that searches its coefficients.
ghost use Rattle.std.specs.Prelude.{◌≡◌, ℕ, ◌+◌, ◌^◌, ◌<◌, ◌≤◌, ◌↔◌, IfOk, IsTrue};
ghost use Rattle.heights.specs.Coefficients.{coefficients_of};
ghost use Rattle.transform.specs.Planes.{BelowPlanes};
ghost use Rattle.ground.specs.Frames.{GroundOf};
ghost use Rattle.ground.specs.Tells.{InRectangle, Reaches, SomeReach};
ghost use Rattle.std.proofs.Common.{rules};

use crate::questions::{Plane, inner_exponent};
use crate::{Block, Ground};
use frame::ClosedFrame;
use head::{Head, Shape};
use heights::Coefficients;
use heights::undoing::CoefficientGrid;
use std::alloc::{AllocError, Global};
use std::ops::Range;

#[derive(Drop)]
pub struct BareGrid {
    coefficients: Coefficients,
    head: Head,
    ghost sized: { head.shape.exponent ≡ coefficients.shape.exponent },
    ghost enough: { BelowPlanes head.shape.exponent (coefficients_of coefficients) head.planes },
    ghost least: { ((p : ℕ) → BelowPlanes head.shape.exponent (coefficients_of coefficients) p → head.planes ≤ p) },
}

// Whether one of the numbers has a magnitude of `least` or more.
fn some_reach(numbers: &[i32], least: u16) -> bool
    ensures { IsTrue result ↔ SomeReach numbers.now least }
{
    numbers
        .iter()
        .any(|number| number.unsigned_abs() >= u32::from(least))
}

// The cells of some rows and columns.
#[derive(Drop)]
struct Rectangle {
    rows: Range<usize>,
    columns: Range<usize>,
}

impl Block {
    // The cells of a block in its place.
    fn cells(self) -> Rectangle
        requires small { self.side ≤ 6 }
        requires row { self.row ≤ 64 }
        requires column { self.column ≤ 64 }
        ensures rows { (result.rows.start ≡ self.row) × (result.rows.end ≡ self.row + 2 ^ self.side) }
        ensures columns { (result.columns.start ≡ self.column) × (result.columns.end ≡ self.column + 2 ^ self.side) }
    {
        let extent = 1 << self.side;
        Rectangle {
            rows: self.row..self.row + extent,
            columns: self.column..self.column + extent,
        }
    }
}

impl BareGrid {
    // The ground of a closed frame's heights.
    pub fn of(frame: &ClosedFrame, heap: Global) -> Result<BareGrid, AllocError>
        ensures { IfOk result (λ b. GroundOf frame.now b.head (coefficients_of b.coefficients)) }
    {
        Ok(BareGrid::over(Coefficients::of(frame, heap)?))
    }

    // The ground whose grid these coefficients are.
    pub fn over(coefficients: Coefficients) -> BareGrid
        ensures coefficients { result.coefficients ≡ coefficients }
        ensures shape { result.head.shape ≡ coefficients.shape }
    {
        let head = coefficients.head();
        BareGrid { coefficients, head }
    }

    pub fn coefficients(&self) -> &Coefficients
        ensures { result.now ≡ self.now.coefficients }
    {
        &self.coefficients
    }

    // Whether some cell of a row inside the grid, in these columns, has a magnitude of `least` or more.
    fn row_reaches(&self, row: usize, columns: &Range<usize>, least: u16) -> bool
        requires row { row < 2 ^ self.now.head.shape.exponent }
        requires columns { columns.now.end ≤ 2 ^ self.now.head.shape.exponent }
        requires across { columns.now.start ≤ columns.now.end }
        ensures { IsTrue result ↔ Reaches self.now.head.shape.exponent (coefficients_of self.now.coefficients) least (InRectangle row (row + 1) columns.now.start columns.now.end) }
    {
        let start = row * self.head.shape().side();
        some_reach(
            &self.coefficients.values()[start + columns.start..start + columns.end],
            least,
        )
    }

    // Whether some cell of a rectangle inside the grid reaches the plane.
    fn reaches(&self, cells: Rectangle, plane: Plane) -> bool
        requires rows { cells.rows.end ≤ 2 ^ self.now.head.shape.exponent }
        requires columns { cells.columns.end ≤ 2 ^ self.now.head.shape.exponent }
        requires across { cells.columns.start ≤ cells.columns.end }
        ensures { IsTrue result ↔ Reaches self.now.head.shape.exponent (coefficients_of self.now.coefficients) (2 ^ plane.number) (InRectangle cells.rows.start cells.rows.end cells.columns.start cells.columns.end) }
    {
        let Rectangle { mut rows, columns } = cells;
        let least = plane.least();
        rows.any(|row| self.row_reaches(row, &columns, least))
    }
}

impl Ground for BareGrid {
    ghost headed = { λ b. b.head };

    ghost grid = { λ b. coefficients_of b.coefficients };

    ghost counted = { Prim.search rules };

    fn head(&self) -> Head {
        self.head
    }

    fn block_reaches(&self, block: Block, plane: u8) -> bool {
        let Some(plane) = Plane::new(plane) else {
            return false;
        };
        block.is_in_place(self.head.shape()) && self.reaches(block.cells(), plane)
    }

    fn rest_reaches(&self, inner: usize, plane: u8) -> bool {
        let shape = self.head.shape();
        let (Some(plane), Some(_)) = (Plane::new(plane), inner_exponent(shape, inner)) else {
            return false;
        };
        let side = shape.side();
        let beside = Rectangle {
            rows: 0..inner,
            columns: inner..side,
        };
        let below = Rectangle {
            rows: inner..side,
            columns: 0..side,
        };
        self.reaches(beside, plane) || self.reaches(below, plane)
    }

    fn is_negative(&self, row: usize, column: usize) -> bool {
        self.coefficients.coefficient(row, column) < 0
    }

    fn has_bit(&self, row: usize, column: usize, plane: u8) -> bool {
        Plane::new(plane).is_some_and(|_| {
            (self.coefficients.coefficient(row, column).unsigned_abs() >> plane) % 2 == 1
        })
    }
}
