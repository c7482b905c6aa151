ghost use Rattle.std.specs.Prelude.{◌≡◌, ◌≤◌, List, [], ◌∷◌, length, reverse, IfOk, MatchOption};
ghost use Rattle.std.specs.List.{AllByRecursion};
ghost use Rattle.std.specs.Iterator.{IsFinite, Drains, Yields};
ghost use Rattle.speck.specs.declared.Part.{Part};
ghost use Rattle.speck.specs.Survey.{arranged};
ghost use Rattle.walk.specs.Parts.{Within};
ghost use Rattle.walk.specs.Piles.{HasRoom, laid};

use speck::Part;
use std::alloc::{AllocError, Global};
use std::marker::Model;

// Parts, the next one on top.
#[derive(Drop)]
pub(crate) struct Pile {
    items: Vec<Part>,
}

impl Model for Pile {
    ghost use Rattle.std.specs.Prelude.{reverse};
    ghost use Rattle.walk.specs.Piles.{Stack};

    ghost Value = { Stack };

    ghost view = { λ p. record { parts = reverse p.items.items; room = p.items.cap } };
}

impl Pile {
    pub(crate) fn open(heap: Global, room: usize) -> Result<Pile, AllocError>
        ensures { IfOk result (λ p. (p.parts ≡ []) × (room ≤ p.room)) }
    {
        let items = Vec::with_capacity(heap, room)?;
        Ok(Pile { items })
    }

    fn put(&mut self, part: Part)
        requires { HasRoom 1 self.old }
        ensures { self.new ≡ laid (part ∷ []) self.old }
    {
        self.items.push_reserved(part);
    }

    // Puts one after another, so that the last is on top.
    pub(crate) fn put_all<I: Iterator<Item = Part> + Drop>(&mut self, parts: I)
        requires can { I.can_next parts }
        requires ends { IsFinite (I.remaining parts) }
        requires room { (xs : List Part) (t : I) → Yields I.next_gives parts xs t → HasRoom (length xs) self.old }
        ensures { (xs : List Part) × Drains I.next_gives parts xs × (self.new ≡ laid (reverse xs) self.old) }
    {
        for part in parts {
            self.put(part);
        }
    }

    pub(crate) fn draw(&mut self) -> Option<Part>
        ensures { MatchOption result ((self.old.parts ≡ []) × (self.new ≡ self.old)) (λ x. self.old ≡ laid (x ∷ []) self.new) }
    {
        self.items.pop()
    }

    // Puts the parts: the smallest on top, those of one side in their order, the rest at the bottom.
    pub(crate) fn gather(&mut self, parts: &[Part])
        requires within { AllByRecursion Within parts.now }
        requires room { HasRoom (length parts.now) self.old }
        ensures { self.new ≡ laid (arranged parts.now) self.old }
    {
        self.put_all(parts.iter().rev().filter(|part| part.is_rest()).copied());
        for side in (0..7).rev() {
            self.put_all(
                parts
                    .iter()
                    .rev()
                    .filter(|part| part.has_side(side))
                    .copied(),
            );
        }
    }
}
