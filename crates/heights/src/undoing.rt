// Reading heights out of coefficients, by undoing the transform.
ghost use Rattle.std.specs.Prelude.{◌≡◌, ℕ, ◌+◌, ◌*◌, ◌/◌, ◌%◌, ◌^◌, ◌<◌, ◌≤◌, length, ℤ, pos, if◌then◌else◌, Some, None, nat_le, slice_index_or, unsigned_abs};
ghost use Rattle.head.specs.Faults.{Answers};
ghost use Rattle.head.specs.Heads.{inside};
ghost use Rattle.head.specs.declared.Shape.{Shape};
ghost use Rattle.transform.specs.Planes.{BelowPlanes};
ghost use Rattle.transform.specs.Transform.{one_of, undone};
ghost use Rattle.heights.specs.Lines.{Small};
ghost use Rattle.heights.specs.Reading.{block_of, drawn, reading_at, refusal_of};
ghost use Rattle.heights.specs.declared.undoing.ReadFault.TheVariants.{Buffer, Cell};

use crate::halving::unhalve;
use head::Shape;
use head::refusals::Refusal;

// Coefficients by row and column. Their meaning is a shape and a grid of numbers below 2^15 in magnitude.
pub trait CoefficientGrid {
    ghost shaped: { Self → Shape };

    ghost coefs: { Self → ℕ → ℕ → ℤ };

    fn shape(&self) -> Shape
        ensures { result ≡ shaped self.now };

    // The coefficient of a cell; 0 outside the map.
    fn coefficient(&self, row: usize, column: usize) -> i32
        ensures { result ≡ reading_at (shaped self.now).exponent (coefs self.now) row column };

    ghost small: { (g : Self) → BelowPlanes (shaped g).exponent (coefs g) 15 };
}

// What reading refuses.
#[derive(Clone, Copy, PartialEq, Eq, Debug)]
pub enum ReadFault {
    Cell,
    Buffer,
}

impl From<ReadFault> for Refusal {
    ghost from_gives = { λ e r. r ≡ refusal_of e };

    fn from(e: ReadFault) -> Refusal {
        match e {
            ReadFault::Cell => Refusal::Cell,
            ReadFault::Buffer => Refusal::Buffer,
        }
    }
}

// What stands at `place`, an even or an odd one, of the pair with this low and difference.
fn one_of(place: usize, low: i32, difference: i32) -> i32
    requires low_small { Small low }
    requires difference_small { Small difference }
    ensures value { result ≡ one_of place low difference }
    ensures small { unsigned_abs result ≤ unsigned_abs low + (unsigned_abs difference + 1) / 2 }
{
    let (first, second) = unhalve(low, difference);
    if place % 2 == 0 { first } else { second }
}

// One cell of a square whose half side is `half`, from the low above it and the differences of its block.
fn finer<G: CoefficientGrid>(grid: &G, half: usize, row: usize, column: usize, low: i32) -> i32
    requires inner { 2 * half ≤ 2 ^ (G.shaped grid.now).exponent }
    requires row_in { row < 2 * half }
    requires column_in { column < 2 * half }
    requires low_small { unsigned_abs low ≤ 262144 }
    ensures value { result ≡ block_of half (G.coefs grid.now) low row column }
    ensures small { unsigned_abs result ≤ unsigned_abs low + 40960 }
{
    let below = grid.coefficient(half + row / 2, column / 2);
    let beside = grid.coefficient(row / 2, half + column / 2);
    let across = grid.coefficient(half + row / 2, half + column / 2);
    let left = one_of(row, low, below);
    let right = one_of(row, beside, across);
    one_of(column, left, right)
}

// The height of a cell of the map: from the coarsest square that it lies in, down to the cell.
fn undone_at<G: CoefficientGrid>(grid: &G, row: usize, column: usize) -> i32
    requires row_in { row < 2 ^ (G.shaped grid.now).exponent }
    requires column_in { column < 2 ^ (G.shaped grid.now).exponent }
    ensures value { result ≡ undone (G.shaped grid.now).exponent (G.shaped grid.now).levels (G.coefs grid.now) row column }
    ensures small { unsigned_abs result ≤ 278527 }
{
    let shape = grid.shape();
    let levels = shape.levels();
    let mut height = grid.coefficient(row >> levels, column >> levels);
    // A loop and not a fold: what `finer` asks of the height so far is the invariant, which a closure would have to say once more.
    for t in (0..levels).rev() {
        height = finer(grid, shape.side() >> (t + 1), row >> t, column >> t, height);
    }
    height
}

// The height of one cell.
pub fn height<G: CoefficientGrid>(grid: &G, row: usize, column: usize) -> Result<i32, ReadFault>
    ensures { Answers result (if inside (G.shaped grid.now).exponent row column then None else Some Cell) (λ h. (h ≡ undone (G.shaped grid.now).exponent (G.shaped grid.now).levels (G.coefs grid.now) row column) × (unsigned_abs h ≤ 278527)) }
{
    grid.shape().place(row, column).ok_or(ReadFault::Cell)?;
    Ok(undone_at(grid, row, column))
}

// All heights in row order, into the front of a buffer.
pub fn map<G: CoefficientGrid>(grid: &G, out: &mut [i32]) -> Result<(), ReadFault>
    ensures answer { Answers result (if nat_le (4 ^ (G.shaped grid.now).exponent) (length out.old) then None else Some Buffer) (λ _. Unit {0}) }
    ensures heights { (p : ℕ) → slice_index_or out.new p (pos 0) ≡ drawn (G.shaped grid.now).exponent (undone (G.shaped grid.now).exponent (G.shaped grid.now).levels (G.coefs grid.now)) out.old p }
{
    let shape = grid.shape();
    let side = shape.side();
    let (heights, _) = out
        .split_at_mut_checked(shape.area())
        .ok_or(ReadFault::Buffer)?;
    for (p, height) in heights.iter_mut().enumerate() {
        *height = undone_at(grid, p / side, p % side);
    }
    Ok(())
}
