// The survey of a grid of coefficients, as definitions and laws (specs/ and proofs/): its rules, the question machine, and which grids are still possible after which bits.
#![tactic(auto)]

ghost use Rattle.std.specs.Prelude.{◌≡◌};
ghost use Rattle.std.specs.Option.{option_to_list};
ghost use Rattle.speck.specs.Grid.{outside};
ghost use Rattle.speck.specs.Survey.{has_side, is_rest};

pub mod laws;

// A set of cells that one answer speaks of.
#[derive(Clone, Copy, PartialEq, Eq, Debug)]
pub enum Part {
    // The block of side 2^side whose top left cell is at row and column.
    Block { side: u8, row: u8, column: u8 },
    // What the top left square of side 2^(side + deeper + 1) has outside that of side 2^side.
    Rest { deeper: u8, side: u8 },
}

impl Part {
    pub fn is_rest(&self) -> bool
        ensures { result ≡ is_rest self.now }
    {
        matches!(self, Part::Rest { .. })
    }

    // Whether it is a block of side 2^exponent.
    pub fn has_side(&self, exponent: u8) -> bool
        ensures { result ≡ has_side exponent self.now }
    {
        matches!(self, Part::Block { side, .. } if *side == exponent)
    }

    // What the top left square of side 2^(side + levels) has outside that of side 2^side, if anything.
    pub fn outside(levels: u8, side: u8) -> Option<Part>
        ensures { option_to_list result ≡ outside levels side }
    {
        levels
            .checked_sub(1)
            .map(|deeper| Part::Rest { deeper, side })
    }
}
