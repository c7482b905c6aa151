// The shape of a map, the head of its survey, and what calls refuse.
#![tactic(auto)]

ghost use Rattle.std.specs.Prelude.{◌≤◌};

mod bytes;
mod making;
pub mod refusals;

// A checked pair: a map of side 2^exponent, transformed by that many levels.
#[derive(Clone, Copy, PartialEq, Eq, Debug)]
pub struct Shape {
    exponent: u8,
    levels: u8,
    ghost some: { 1 ≤ exponent },
    ghost small: { exponent ≤ 6 },
    ghost within: { levels ≤ exponent },
}

// A shape, and the number of bit planes of the coefficients.
#[derive(Clone, Copy, PartialEq, Eq, Debug)]
pub struct Head {
    shape: Shape,
    planes: u8,
    ghost few: { planes ≤ 15 },
}

#[derive(Clone, Copy, PartialEq, Eq, Debug)]
pub enum HeadFault {
    Side,
    Levels,
    Planes,
    Edition,
    Buffer,
}
