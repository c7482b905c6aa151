// One level of the transform in place, line by line: a row or a column is a line of numbers a fixed stride apart.
ghost use Rattle.std.specs.Prelude.{◌≡◌, ℕ, ◌+◌, ◌*◌, ◌/◌, ◌%◌, ◌^◌, ◌<◌, ◌≤◌, ◌≢◌, length, pos, slice_index_or};
ghost use Rattle.transform.specs.Transform.{On, grid_of, halved, in_rows, level as levelOf};
ghost use Rattle.transform.specs.Planes.{BelowPlanes};
ghost use Rattle.heights.specs.Lines.{Apart, Small, Within, lines_of, strided};

use crate::halving::halve;
use head::Shape;

// Halves the pairs of the line that begins at the front of `values`, as far as the buffer is long: lows first, differences behind them.
fn halve_line(values: &mut [i32], stride: usize, line: &mut [i32])
    requires some { 0 < stride }
    requires inside { (t : ℕ) → t < length line.old → t * stride < length values.old }
    requires small { (t : ℕ) → t < length line.old → Small (strided values.old stride t) }
    ensures line { (t : ℕ) → t < length line.old → strided values.new stride t ≡ halved (length line.old / 2) (strided values.old stride) t }
    ensures rest { (p : ℕ) → ((t : ℕ) → t < length line.old → p ≢ t * stride) → slice_index_or values.new p (pos 0) ≡ slice_index_or values.old p (pos 0) }
{
    // The stride by number, as where the halves are laid back.
    for (t, number) in line.iter_mut().enumerate() {
        *number = values[t * stride];
    }
    let (pairs, _) = line.as_chunks::<2>();
    for (p, [a, b]) in pairs.iter().enumerate() {
        let (low, difference) = halve(*a, *b);
        values[p * stride] = low;
        values[(pairs.len() + p) * stride] = difference;
    }
}

// The lines of a square, its rows or its columns: line i begins at i * across, and its numbers lie `along` apart.
#[derive(Clone, Copy)]
struct Lines {
    side: usize,
    across: usize,
    along: usize,
    ghost few: { side ≤ 64 },
    ghost some: { 0 < along },
    ghost apart: { Apart side across along },
    ghost within: { Within side across along (side * side) },
}

impl Lines {
    // Halves the first lines in place: as many of them, and as far, as the buffer is long. By number, since the lines of columns overlap in the slice and no iterator cuts it into them.
    fn halve(self, values: &mut [i32], line: &mut [i32])
        requires inner { length line.old ≤ self.side }
        requires whole { self.side * self.side ≤ length values.old }
        requires small { On self.side (λ i j. Small (lines_of values.old self.across self.along i j)) }
        ensures { On self.side (λ i j. lines_of values.new self.across self.along i j ≡ in_rows (length line.old) (halved (length line.old / 2)) (lines_of values.old self.across self.along) i j) }
    {
        for i in 0..line.len() {
            halve_line(&mut values[i * self.across..], self.along, line);
        }
    }
}

// One level of the transform on the top left square that is as wide as the buffer is long: its rows, then its columns. Numbers and shape are handed apart: together they are `Coefficients`, which these numbers are not yet.
pub(crate) fn level(values: &mut [i32], shape: Shape, line: &mut [i32])
    requires pairs { length line.old % 2 ≡ 0 }
    requires inner { length line.old ≤ 2 ^ shape.exponent }
    requires whole { 4 ^ shape.exponent ≤ length values.old }
    requires small { BelowPlanes shape.exponent (grid_of shape.exponent values.old) 15 }
    ensures { On (2 ^ shape.exponent) (λ i j. grid_of shape.exponent values.new i j ≡ levelOf (length line.old / 2) (grid_of shape.exponent values.old) i j) }
{
    let side = shape.side();
    let rows = Lines {
        side,
        across: side,
        along: 1,
    };
    let columns = Lines {
        side,
        across: 1,
        along: side,
    };
    rows.halve(values, line);
    columns.halve(values, line);
}
