ghost use Rattle.std.specs.Prelude.{◌≡◌, ◌^◌, replicate, IfOk, Some, None};
ghost use Rattle.head.specs.Faults.{Answers};
ghost use Rattle.frame.specs.Frames.{entered, entry_fault, refusal_of};
ghost use Rattle.frame.specs.declared.FrameFault.TheVariants.{Cell};

use super::*;
use head::refusals::Refusal;
use std::alloc::{AllocError, Global};

impl From<FrameFault> for Refusal {
    ghost from_gives = { λ e r. r ≡ refusal_of e };

    fn from(e: FrameFault) -> Refusal {
        match e {
            FrameFault::Height => Refusal::Height,
            FrameFault::Cell => Refusal::Cell,
            FrameFault::ToldTwice => Refusal::ToldTwice,
        }
    }
}

impl Frame<Open> {
    // A frame with no cell told. It is never refused; memory may be wanting.
    pub fn open(shape: Shape, heap: Global) -> Result<OpenFrame, AllocError>
        ensures { IfOk result (λ f. (f.shape ≡ shape) × (f.cells.items ≡ replicate (4 ^ shape.exponent) None)) }
    {
        let cells = vec![in heap; None; shape.area()]?;
        Ok(Frame {
            shape,
            cells,
            state: Open,
        })
    }

    // Tells the height of one cell.
    pub fn enter(&mut self, row: usize, column: usize, height: i32) -> Result<(), FrameFault>
        ensures answer { Answers result (entry_fault self.old.shape.exponent self.old.cells.items row column height) (λ _. Unit {0}) }
        ensures cells { self.new.cells.items ≡ entered self.old.shape.exponent self.old.cells.items row column height }
        ensures shape { self.new.shape ≡ self.old.shape }
    {
        if !(LOWEST..=HIGHEST).contains(&height) {
            return Err(FrameFault::Height);
        }
        let place = self.shape.place(row, column).ok_or(FrameFault::Cell)?;
        if self.cells[place].is_some() {
            return Err(FrameFault::ToldTwice);
        }
        self.cells[place] = Some(height);
        Ok(())
    }

    // The frame as it is told, for good.
    pub fn close(self) -> ClosedFrame
        ensures shape { result.shape ≡ self.shape }
        ensures cells { result.cells.items ≡ self.cells.items }
    {
        let Frame { shape, cells, .. } = self;
        Frame {
            shape,
            cells,
            state: Closed,
        }
    }
}
