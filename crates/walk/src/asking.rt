// The states of a walk, its questions, and what it refuses.
ghost use Rattle.std.specs.Prelude.{◌≡◌};
ghost use Rattle.walk.specs.Parts.{refusal_of};

use crate::lists::Cell;
use head::refusals::Refusal;
use speck::Part;

// What the next bit answers.
#[derive(Clone, Copy)]
pub(crate) enum Asking {
    // A part that waited, or one whose set owes nothing any more.
    Part(Part),
    // A part of a set that said yes and owes a yes; so many of its parts are left behind it.
    Quarter { part: Part, left: u8 },
    // The sign of a cell that said yes.
    Sign(Cell),
    // The next bit of a cell found in an earlier plane.
    Refinement,
}

// The question that the next bit answers. Row and column stand apart, since a ground takes them as two numbers of its own type.
#[derive(Clone, Copy, PartialEq, Eq, Debug)]
pub enum Question {
    // Has some cell of the part a magnitude of 2^plane or more?
    Significant { plane: u8, part: Part },
    // Is the cell negative?
    Negative { row: u8, column: u8 },
    // What is the cell's bit in the plane?
    Bit { plane: u8, row: u8, column: u8 },
}

// What a walk refuses.
#[derive(Clone, Copy, PartialEq, Eq, Debug)]
pub enum BitFault {
    Surplus,
    Contradiction,
}

impl From<BitFault> for Refusal {
    ghost from_gives = { λ e r. r ≡ refusal_of e };

    fn from(e: BitFault) -> Refusal {
        match e {
            BitFault::Surplus => Refusal::Surplus,
            BitFault::Contradiction => Refusal::Contradiction,
        }
    }
}
