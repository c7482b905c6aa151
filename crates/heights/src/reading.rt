ghost use Rattle.std.specs.Prelude.{◌≡◌};
ghost use Rattle.heights.specs.Coefficients.{coefficients_of};
ghost use Rattle.std.proofs.Common.{rules};

use super::*;
use crate::undoing::CoefficientGrid;

impl CoefficientGrid for Coefficients {
    ghost shaped = { λ c. c.shape };

    ghost coefs = { coefficients_of };

    ghost small = { Prim.search rules };

    fn shape(&self) -> Shape {
        self.shape
    }

    fn coefficient(&self, row: usize, column: usize) -> i32 {
        self.shape
            .place(row, column)
            .map_or(0, |place| self.values[place])
    }
}

impl Coefficients {
    // All coefficients in row order.
    pub fn values(&self) -> &[i32]
        ensures { result.now ≡ self.now.values.items }
    {
        self.values.as_slice()
    }
}
