ghost use Rattle.std.specs.Prelude.{◌≡◌, ◌≤◌, Some};
ghost use Rattle.speck.specs.Grid.{significant as significantPart};
ghost use Rattle.speck.specs.Laws.{AboutGrid, InPlace};
ghost use Rattle.walk.specs.Walks.{asks};
ghost use Rattle.sender.specs.Asked.{told};

use ground::{Block, Ground};
use speck::Part;
use walk::Question;

// Whether a part of the grid is significant.
fn significant<G: Ground>(ground: &G, part: Part, plane: u8) -> bool
    requires place { InPlace (G.headed ground.now).shape.exponent part }
    requires plane { plane ≤ 14 }
    ensures { result ≡ significantPart (G.grid ground.now) plane part }
{
    match part {
        Part::Block { side, row, column } => {
            let (row, column) = (row.into(), column.into());
            ground.block_reaches(Block { row, column, side }, plane)
        }
        Part::Rest { side, .. } => ground.rest_reaches(1 << side, plane),
    }
}

// What a ground answers to a question about its grid.
pub(crate) fn answer<G: Ground>(ground: &G, question: Question) -> bool
    requires { AboutGrid (G.headed ground.now).shape.exponent (G.headed ground.now).planes (asks (Some question)) }
    ensures { Some result ≡ told (G.grid ground.now) (asks (Some question)) }
{
    match question {
        Question::Significant { plane, part } => significant(ground, part, plane),
        Question::Negative { row, column } => ground.is_negative(row.into(), column.into()),
        Question::Bit { plane, row, column } => ground.has_bit(row.into(), column.into(), plane),
    }
}
