ghost use Rattle.std.specs.Prelude.{◌≡◌, ℕ, ◌^◌, ◌<◌, ◌≤◌};
ghost use Rattle.transform.specs.Planes.{PlaneCount};
ghost use Rattle.heights.specs.Coefficients.{Top, coefficients_of};

use super::*;
use head::Head;

// The number of binary digits of `n`. A cast that is proved to lose nothing, where `try_from` would have a case that never comes.
fn bit_length(n: u32) -> u8
    ensures enough { n < 2 ^ result }
    ensures least { (p : ℕ) → n < 2 ^ p → result ≤ p }
{
    (u32::BITS - n.leading_zeros()) as u8
}

impl Coefficients {
    // The largest magnitude.
    fn top(&self) -> u32
        ensures { Top self.now.values.items result }
    {
        self.values
            .iter()
            .map(|value| value.unsigned_abs())
            .max()
            .unwrap_or(0)
    }

    // The head of these coefficients, with the least number of planes that holds them all.
    pub fn head(&self) -> Head
        ensures shape { result.shape ≡ self.now.shape }
        ensures planes { PlaneCount self.now.shape.exponent (coefficients_of self.now) result.planes }
    {
        Head::of(self.shape, bit_length(self.top())).unwrap()
    }
}
