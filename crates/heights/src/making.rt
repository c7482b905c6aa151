ghost use Rattle.std.specs.Prelude.{◌≡◌, ◌^◌, ◌≤◌, map, length, IfOk};
ghost use Rattle.frame.specs.Cells.{settled};
ghost use Rattle.transform.specs.Planes.{Span};
ghost use Rattle.transform.specs.Transform.{On, grid_of, transform as transform_of};
ghost use Rattle.heights.specs.Coefficients.{Transformed};

use super::*;
use crate::lines::level;
use frame::{ClosedFrame, UNTOLD};
use std::alloc::{AllocError, Global};

// The heights of a closed frame in row order.
fn settle(frame: &ClosedFrame, heap: Global) -> Result<Vec<i32>, AllocError>
    ensures { IfOk result (λ v. v.items ≡ map settled frame.now.cells.items) }
{
    frame
        .cells()
        .iter()
        .map(|cell| cell.unwrap_or(UNTOLD))
        .collect(heap)
}

// Turns heights in row order into their coefficients, in place.
fn transform(values: &mut [i32], shape: Shape)
    requires whole { 4 ^ shape.exponent ≤ length values.old }
    requires span { On (2 ^ shape.exponent) (λ i j. Span (grid_of shape.exponent values.old i j)) }
    ensures { On (2 ^ shape.exponent) (λ i j. grid_of shape.exponent values.new i j ≡ transform_of shape.exponent shape.levels (grid_of shape.exponent values.old) i j) }
{
    let mut line = [0i32; 64];
    for t in 0..shape.levels() {
        level(values, shape, &mut line[..shape.side() >> t]);
    }
}

impl Coefficients {
    // The coefficients of a frame, from which undoing gives its heights back.
    pub fn of(frame: &ClosedFrame, heap: Global) -> Result<Coefficients, AllocError>
        ensures { IfOk result (λ c. Transformed frame.now c) }
    {
        let shape = frame.shape();
        let mut values = settle(frame, heap)?;
        transform(values.as_mut_slice(), shape);
        Ok(Coefficients { shape, values })
    }
}
