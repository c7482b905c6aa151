// Frames of heights: open while cells are told, closed for good afterwards.
#![tactic(auto)]

ghost use Rattle.std.specs.Prelude.{◌≡◌, ℕ, ◌^◌, true, None, vec_len, slice_index_or};
ghost use Rattle.frame.specs.Cells.{may_stand};

use head::Shape;

mod settled;
mod telling;

// The heights that a cell may have, in centimetres.
pub const LOWEST: i32 = -8192;

pub const HIGHEST: i32 = 8191;

// How an untold cell stands in a closed frame.
pub const UNTOLD: i32 = LOWEST;

// A frame that cells are told to.
#[derive(Clone, Copy, Debug)]
pub struct Open;

// A frame that nothing is entered into any more. Closing an open one alone makes it.
#[derive(Clone, Copy, Debug)]
pub struct Closed;

// The cells' heights in centimetres, where they have been told, in row order.
#[derive(Drop)]
pub struct Frame<S> {
    shape: Shape,
    cells: Vec<Option<i32>>,
    state: S,
    ghost whole: { vec_len cells ≡ 4 ^ shape.exponent },
    ghost allowed: { ((p : ℕ) → may_stand (slice_index_or cells.items p None) ≡ true) },
}

pub type OpenFrame = Frame<Open>;

pub type ClosedFrame = Frame<Closed>;

impl<S> Frame<S> {
    pub fn shape(&self) -> Shape
        ensures { result ≡ self.now.shape }
    {
        self.shape
    }
}

// What telling a cell, or reading one, refuses.
#[derive(Clone, Copy, PartialEq, Eq, Debug)]
pub enum FrameFault {
    Height,
    Cell,
    ToldTwice,
}
