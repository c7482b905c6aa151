ghost use Rattle.std.specs.Prelude.{◌≡◌, if◌then◌else◌, Some, None};
ghost use Rattle.head.specs.Faults.{Answers};
ghost use Rattle.head.specs.Heads.{inside};
ghost use Rattle.frame.specs.Frames.{heights_of};
ghost use Rattle.frame.specs.declared.FrameFault.TheVariants.{Cell};

use super::*;

impl Frame<Closed> {
    // The told heights in row order.
    pub fn cells(&self) -> &[Option<i32>]
        ensures { result.now ≡ self.now.cells.items }
    {
        self.cells.as_slice()
    }

    // The height of one cell.
    pub fn height(&self, row: usize, column: usize) -> Result<i32, FrameFault>
        ensures { Answers result (if inside self.now.shape.exponent row column then None else Some Cell) (λ h. h ≡ heights_of self.now.shape.exponent self.now.cells.items row column) }
    {
        let place = self.shape.place(row, column).ok_or(FrameFault::Cell)?;
        Ok(self.cells[place].unwrap_or(UNTOLD))
    }
}
