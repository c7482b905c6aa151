ghost use Rattle.std.specs.Prelude.{◌≡◌, ◌^◌, ◌<◌, ◌≤◌, IfSome};
ghost use Rattle.head.specs.Faults.{Answers};
ghost use Rattle.head.specs.Heads.{head_fault, place_of, planes_fault, refusal_of, shape_fault};

use super::*;
use crate::refusals::Refusal;

impl From<HeadFault> for Refusal {
    ghost from_gives = { λ e r. r ≡ refusal_of e };

    fn from(e: HeadFault) -> Refusal {
        match e {
            HeadFault::Side => Refusal::Side,
            HeadFault::Levels => Refusal::Levels,
            HeadFault::Planes => Refusal::Planes,
            HeadFault::Edition => Refusal::Edition,
            HeadFault::Buffer => Refusal::Buffer,
        }
    }
}

impl Shape {
    pub fn new(exponent: u8, levels: u8) -> Result<Shape, HeadFault>
        ensures { Answers result (shape_fault exponent levels) (λ s. (s.exponent ≡ exponent) × (s.levels ≡ levels)) }
    {
        if !(1..=6).contains(&exponent) {
            return Err(HeadFault::Side);
        }
        if levels > exponent {
            return Err(HeadFault::Levels);
        }
        Ok(Shape { exponent, levels })
    }

    pub fn exponent(&self) -> u8
        ensures { result ≡ self.now.exponent }
    {
        self.exponent
    }

    pub fn levels(&self) -> u8
        ensures { result ≡ self.now.levels }
    {
        self.levels
    }

    // How many rows the map has, and how many columns.
    pub fn side(&self) -> usize
        ensures value { result ≡ 2 ^ self.now.exponent }
        ensures some { 0 < result }
        ensures small { result ≤ 64 }
    {
        1 << self.exponent
    }

    // How many cells the map has.
    pub fn area(&self) -> usize
        ensures value { result ≡ 4 ^ self.now.exponent }
        ensures small { result ≤ 4096 }
    {
        self.side() * self.side()
    }

    // The place of a cell in row order, if the map has it. In every public call a cell is a row and a column, and no struct: the rules and the tables name it by these two numbers.
    pub fn place(&self, row: usize, column: usize) -> Option<usize>
        ensures value { result ≡ place_of self.now.exponent row column }
        ensures inside { IfSome result (λ p. p < 4 ^ self.now.exponent) }
    {
        let side = self.side();
        (row < side && column < side).then(|| row * side + column)
    }
}

impl Head {
    pub fn new(exponent: u8, levels: u8, planes: u8) -> Result<Head, HeadFault>
        ensures { Answers result (head_fault exponent levels planes) (λ h. (h.shape.exponent ≡ exponent) × (h.shape.levels ≡ levels) × (h.planes ≡ planes)) }
    {
        Head::of(Shape::new(exponent, levels)?, planes)
    }

    // The head of a shape that is checked already.
    pub fn of(shape: Shape, planes: u8) -> Result<Head, HeadFault>
        ensures { Answers result (planes_fault planes) (λ h. (h.shape ≡ shape) × (h.planes ≡ planes)) }
    {
        if planes > 15 {
            return Err(HeadFault::Planes);
        }
        Ok(Head { shape, planes })
    }

    pub fn shape(&self) -> Shape
        ensures { result ≡ self.now.shape }
    {
        self.shape
    }

    pub fn planes(&self) -> u8
        ensures { result ≡ self.now.planes }
    {
        self.planes
    }
}
