// Examples worked by hand: as one table on the definitions, and the first of them made by the code.
#![tactic(auto)]

ghost use Rattle.std.specs.Prelude.{◌≡◌, IfOk};
ghost use Rattle.heights.specs.Coefficients.{coefficients_of};
ghost use Rattle.transform.specs.Transform.{On};
ghost use Rattle.examples.specs.Worked.{WorkedExamples, coefficients2};

use frame::OpenFrame;
use head::Shape;
use heights::Coefficients;
use std::alloc::{AllocError, Global};

// The coefficients of the map 10 7 / 4 5, by one level.
pub fn coefficients(heap: Global) -> Result<Coefficients, AllocError>
    ensures table { WorkedExamples }
    ensures made { IfOk result (λ c. On 2 (λ i j. coefficients_of c i j ≡ coefficients2 i j)) }
{
    let shape = Shape::new(1, 1).unwrap();
    let mut frame = OpenFrame::open(shape, heap)?;
    // Four calls and no loop, which would need an invariant of its own for four cells.
    let _ = frame.enter(0, 0, 10);
    let _ = frame.enter(0, 1, 7);
    let _ = frame.enter(1, 0, 4);
    let _ = frame.enter(1, 1, 5);
    Coefficients::of(&frame.close(), heap)
}
