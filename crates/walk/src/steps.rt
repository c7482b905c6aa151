ghost use Rattle.std.specs.Prelude.{◌≡◌, ℕ, ◌+◌, ◌-◌, Bool, List, [], ◌∷◌, ◌++◌, IfOk, OnErr};
ghost use Rattle.speck.specs.Machine.{ask, start};
ghost use Rattle.speck.specs.Places.{place_step};
ghost use Rattle.speck.specs.Grid.{Grid};
ghost use Rattle.speck.specs.Laws.{AsksOn};
ghost use Rattle.speck.specs.Receiver.{Headed, Prefix, open_planes};
ghost use Rattle.speck.specs.Survey.{survey};
ghost use Rattle.walk.specs.Walks.{Follows, Judged, asks, next_of, state_of};

use super::*;
use head::Head;
use lists::Cell;
use std::alloc::{AllocError, Global};

impl Walk {
    // The walk of a survey with this head, at its beginning. All the memory it will need is reserved here.
    pub fn open(head: Head, heap: Global) -> Result<Walk, AllocError>
        ensures state { IfOk result (λ w. state_of w ≡ start (head.shape.exponent - head.shape.levels) head.shape.levels head.planes) }
        ensures follows { IfOk result (λ w. Follows w (head.shape.exponent - head.shape.levels) head.shape.levels head.planes []) }
    {
        let shape = head.shape();
        let levels = shape.levels();
        let side = shape.exponent() - levels;
        let (lists, asking) = match head.planes().checked_sub(1) {
            Some(plane) => {
                let mut lists = Lists::open(heap, shape.area(), plane)?;
                let asking = lists.ask_first(side, levels);
                (lists, Some(asking))
            }
            None => {
                let mut lists = Lists::open(heap, 2, 0)?;
                lists.rest_all(side, levels);
                (lists, None)
            }
        };
        Ok(Walk { lists, asking })
    }

    // What the next bit answers; None: the survey is whole.
    pub fn question(&self) -> Option<Question>
        ensures machine { asks result ≡ ask (state_of self.now) }
        ensures next { (x k P : ℕ) (bits : List Bool) (g : Grid) → Follows self.now x k P bits → Headed (x + k) P g → Prefix bits (survey x k P g) → AsksOn (asks result) g bits (survey x k P g) }
    {
        let plane = self.lists.plane;
        Some(match self.asking? {
            Asking::Part(part) | Asking::Quarter { part, .. } => Question::Significant {
                plane,
                part,
            },
            Asking::Sign(Cell { row, column }) => Question::Negative { row, column },
            Asking::Refinement => {
                let Cell { row, column } = self.lists.found[self.lists.at];
                Question::Bit { plane, row, column }
            }
        })
    }

    // Takes the answer to the question. A refused one changes nothing.
    pub fn step(&mut self, answer: bool) -> Result<(), BitFault>
        ensures goes { next_of result (state_of self.new) ≡ place_step (state_of self.old) answer }
        ensures judged { (x k P : ℕ) (bits : List Bool) → Follows self.old x k P bits → Judged result self.new x k P (bits ++ answer ∷ []) }
        ensures stays { OnErr result (self.new ≡ self.old) }
    {
        self.asking = match (self.asking.ok_or(BitFault::Surplus)?, answer) {
            (Asking::Part(part) | Asking::Quarter { part, .. }, true) => self
                .lists
                .unfold_part(part),
            (Asking::Part(part), false) => self.lists.pass(part),
            (Asking::Quarter { left: 0, .. }, false) => return Err(BitFault::Contradiction),
            (Asking::Quarter { part, left }, false) => self.lists.pass_on(part, left),
            (Asking::Sign(cell), _) => self.lists.find(cell),
            (Asking::Refinement, _) => self.lists.refine(),
        };
        Ok(())
    }

    // How many planes are open: those whose last answer has not come.
    pub fn open_planes(&self) -> u8
        ensures { result ≡ open_planes (state_of self.now) }
    {
        self.asking.map_or(0, |_| self.lists.plane + 1)
    }
}
