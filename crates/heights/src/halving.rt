// Halving a pair and undoing it, exactly, in 32 bits.
ghost use Rattle.std.specs.Prelude.{◌≡◌};
ghost use Rattle.transform.specs.Transform.{difference_of, first_of, low_of, second_of};
ghost use Rattle.heights.specs.Lines.{Small};

// The low and the difference of a pair. The shift rounds towards minus infinity. What is asked of the numbers is a fact and no type: each comes out of a slice of i32 and goes back into one.
pub(crate) fn halve(a: i32, b: i32) -> (i32, i32)
    requires first { Small a }
    requires second { Small b }
    ensures low { result.0 ≡ low_of a b }
    ensures difference { result.1 ≡ difference_of a b }
{
    ((a + b) >> 1, a - b)
}

// The pair that has this low and this difference.
pub(crate) fn unhalve(low: i32, difference: i32) -> (i32, i32)
    requires low_small { Small low }
    requires difference_small { Small difference }
    ensures first { result.0 ≡ first_of low difference }
    ensures second { result.1 ≡ second_of low difference }
{
    let first = low + ((difference + 1) >> 1);
    (first, first - difference)
}
