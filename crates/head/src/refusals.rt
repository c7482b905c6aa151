// The refusals of the whole system, with the numbers and words that are logged and printed.
ghost use Rattle.std.specs.Prelude.{◌≡◌, ◌++◌, Some, codes, decimal};
ghost use Rattle.head.specs.Refusals.{number_of, word_of};

use std::fmt;

#[derive(Clone, Copy, PartialEq, Eq, Debug)]
pub enum Refusal {
    Side = 1,
    Levels = 2,
    Planes = 3,
    Height = 4,
    Cell = 5,
    ToldTwice = 6,
    Edition = 7,
    Slot = 8,
    Buffer = 9,
    Surplus = 10,
    Contradiction = 11,
    Trailer = 12,
    Padding = 13,
}

impl Refusal {
    // The discriminant is the number, so `as` reads it off; a `From` would be a second table.
    pub fn number(self) -> u8
        ensures { result ≡ number_of self }
    {
        self as u8
    }

    pub fn word(self) -> &'static str
        ensures { result.now ≡ word_of self }
    {
        match self {
            Refusal::Side => "side",
            Refusal::Levels => "levels",
            Refusal::Planes => "planes",
            Refusal::Height => "height",
            Refusal::Cell => "cell",
            Refusal::ToldTwice => "told twice",
            Refusal::Edition => "edition",
            Refusal::Slot => "slot",
            Refusal::Buffer => "buffer",
            Refusal::Surplus => "surplus",
            Refusal::Contradiction => "contradiction",
            Refusal::Trailer => "trailer",
            Refusal::Padding => "padding",
        }
    }
}

impl fmt::Display for Refusal {
    ghost output = { λ x. Some (decimal (number_of x) ++ (codes " " ++ word_of x)) };

    fn fmt<W: fmt::Write>(&self, f: &mut fmt::Formatter<W>) -> fmt::Result {
        let number = self.number();
        let word = self.word();
        write!(f, "{number} {word}")
    }
}
