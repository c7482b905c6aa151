// From a closed frame to its coefficients and back, and what may be said of the way.
#![tactic(auto)]

ghost use Rattle.std.specs.Prelude.{◌≡◌, ℕ, ◌^◌, ◌<◌, pos, vec_len, slice_index_or, unsigned_abs};

use head::Shape;

mod halving;
mod lines;
mod making;
mod planes;
mod reading;
pub mod undoing;

// The transform of a frame's heights by its levels, in row order.
#[derive(Drop)]
pub struct Coefficients {
    shape: Shape,
    values: Vec<i32>,
    ghost whole: { vec_len values ≡ 4 ^ shape.exponent },
    ghost small: { ((p : ℕ) → unsigned_abs (slice_index_or values.items p (pos 0)) < 2 ^ 15) },
}
