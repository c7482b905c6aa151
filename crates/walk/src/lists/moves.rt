ghost use Rattle.std.specs.Prelude.{◌≡◌, ◌+◌, ◌^◌, ◌<◌, ◌≤◌, Some, true, false, [], ◌∷◌, drop, IfOk};
ghost use Rattle.speck.specs.Grid.{outside};
ghost use Rattle.speck.specs.Places.{place_step};
ghost use Rattle.speck.specs.Machine.{enter_plane, refine_on, go_on, going, start};
ghost use Rattle.walk.specs.Parts.{Within};
ghost use Rattle.walk.specs.Layout.{todo_of, noes_of, cells_of, old_of, new_of, done_of, state_in, Sound, Sorts, Good, Now, Opened};

use super::*;
use crate::asking::*;
use std::alloc::{AllocError, Global};

// The moves are the lists' and answer what is asked next: those of a walk would have to be told what it asks already.
impl Lists {
    pub(crate) fn open(heap: Global, room: usize, plane: u8) -> Result<Lists, AllocError>
        ensures { IfOk result (λ l. Opened room plane l) }
    {
        let pending = Pile::open(heap, room)?;
        let waiting = Vec::with_capacity(heap, room)?;
        let found = Vec::with_capacity(heap, room)?;
        Ok(Lists {
            plane,
            pending,
            waiting,
            found,
            kept: 0,
            at: 0,
        })
    }

    // Nothing is to be asked: the whole grid is waiting.
    pub(crate) fn rest_all(&mut self, side: u8, levels: u8)
        requires waiting { noes_of self.old ≡ [] }
        requires room { 2 ≤ self.old.waiting.cap }
        ensures waiting { noes_of self.new ≡ Part.Block side 0 0 ∷ outside levels side }
        ensures found { self.new.found ≡ self.old.found }
    {
        self.waiting.push_reserved(Part::Block {
            side,
            row: 0,
            column: 0,
        });
        if let Some(rest) = Part::outside(levels, side) {
            self.waiting.push_reserved(rest);
        }
    }

    // The first question: the part in the corner, whose group owes a yes.
    pub(crate) fn ask_first(&mut self, side: u8, levels: u8) -> Asking
        requires side { side + levels ≤ 6 }
        requires opened { Opened (4 ^ (side + levels)) self.old.plane self.old }
        requires plane { self.old.plane ≤ 14 }
        ensures { Now (Some result) self.new (going (start side levels (self.old.plane + 1))) }
    {
        let rest = Part::outside(levels, side);
        self.pending.put_all(rest.into_iter());
        Asking::Quarter {
            part: Part::Block {
                side,
                row: 0,
                column: 0,
            },
            left: u8::from(rest.is_some()),
        }
    }

    // A part that said yes: its cell, or its own parts, of which one has to say yes.
    pub(crate) fn unfold_part(&mut self, part: Part) -> Option<Asking>
        requires { Good (Some (Asking.Part part)) self.old }
        ensures { Now result self.new (place_step (state_in (Some (Asking.Part part)) self.old) true) }
    {
        match part {
            Part::Block {
                side: 0,
                row,
                column,
            } => Some(Asking::Sign(Cell { row, column })),
            Part::Block { side, row, column } => {
                let [part, across, below, last] = quarters(side - 1, row, column);
                self.pending.put_all([last, below, across].iter().copied());
                Some(Asking::Quarter { part, left: 3 })
            }
            Part::Rest { deeper, side } => {
                let [_, part, below, last] = quarters(side, 0, 0);
                let rest = Part::outside(deeper, side + 1);
                self.pending.put_all(rest.into_iter());
                self.pending.put_all([last, below].iter().copied());
                Some(Asking::Quarter {
                    part,
                    left: 2 + u8::from(rest.is_some()),
                })
            }
        }
    }

    // The next part that waits, or else the next bit of a found cell. A match and no chain, here and at a plane's beginning: a closure over the lists would state again what the move asks of them.
    pub(crate) fn ask_on(&mut self) -> Option<Asking>
        requires { Sorts 0 self.old }
        ensures { Now result self.new (going (go_on self.old.plane (todo_of self.old) (noes_of self.old) (old_of self.old) (new_of self.old))) }
    {
        match self.pending.draw() {
            Some(part) => Some(Asking::Part(part)),
            None => self.refine_on(),
        }
    }

    // The next bit of a found cell, or else the next plane.
    fn refine_on(&mut self) -> Option<Asking>
        requires sound { Sound 0 self.old }
        requires none { todo_of self.old ≡ [] }
        ensures { Now result self.new (going (refine_on self.old.plane (drop self.old.at (old_of self.old)) (done_of self.old) (noes_of self.old) (new_of self.old))) }
    {
        if self.at < self.kept {
            Some(Asking::Refinement)
        } else {
            self.next_plane()
        }
    }

    // The first question of the next plane, if it is not the last one.
    fn next_plane(&mut self) -> Option<Asking>
        requires sound { Sound 0 self.old }
        requires none { todo_of self.old ≡ [] }
        requires at { self.old.at ≡ self.old.kept }
        ensures { Now result self.new (going (enter_plane self.old.plane (noes_of self.old) (cells_of self.old))) }
    {
        self.plane = self.plane.checked_sub(1)?;
        self.kept = self.found.len();
        self.at = 0;
        self.pending.gather(self.waiting.as_slice());
        self.waiting.clear();
        match self.pending.draw() {
            Some(part) => Some(Asking::Part(part)),
            None => (self.kept > 0).then_some(Asking::Refinement),
        }
    }

    // A part that waited said no.
    pub(crate) fn pass(&mut self, part: Part) -> Option<Asking>
        requires { Good (Some (Asking.Part part)) self.old }
        ensures { Now result self.new (place_step (state_in (Some (Asking.Part part)) self.old) false) }
    {
        self.waiting.push_reserved(part);
        self.ask_on()
    }

    // A part of a group that owes a yes said no, and it was not the last.
    pub(crate) fn pass_on(&mut self, part: Part, left: u8) -> Option<Asking>
        requires some { 0 < left }
        requires good { Good (Some (Asking.Quarter part left)) self.old }
        ensures { Now result self.new (place_step (state_in (Some (Asking.Quarter part left)) self.old) false) }
    {
        self.waiting.push_reserved(part);
        let part = self.pending.draw()?;
        Some(Asking::Quarter {
            part,
            left: left - 1,
        })
    }

    // A cell was found: its sign came.
    pub(crate) fn find(&mut self, cell: Cell) -> Option<Asking>
        requires { Good (Some (Asking.Sign cell)) self.old }
        ensures { Now result self.new (place_step (state_in (Some (Asking.Sign cell)) self.old) true) }
    {
        self.found.push_reserved(cell);
        self.ask_on()
    }

    // A bit of a found cell came.
    pub(crate) fn refine(&mut self) -> Option<Asking>
        requires { Good (Some Asking.Refinement) self.old }
        ensures { Now result self.new (place_step (state_in (Some Asking.Refinement) self.old) true) }
    {
        self.at += 1;
        self.refine_on()
    }
}

// The four blocks of side 2^side whose top left one is at row and column.
fn quarters(side: u8, row: u8, column: u8) -> [Part; 4]
    requires { Within (Part.Block side row column) }
    ensures { result ≡ Part.Block side row column ∷ Part.Block side row (column + 2 ^ side) ∷ Part.Block side (row + 2 ^ side) column ∷ Part.Block side (row + 2 ^ side) (column + 2 ^ side) ∷ [] }
{
    let half = 1 << side;
    let at = |row, column| Part::Block { side, row, column };
    [
        at(row, column),
        at(row, column + half),
        at(row + half, column),
        at(row + half, column + half),
    ]
}
