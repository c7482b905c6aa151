// The integer S transform as definitions and laws (specs/ and proofs/), and the error that undoing it admits.
#![tactic(auto)]

ghost use Rattle.std.specs.Prelude.{◌≡◌, ◌≤◌, MatchOption};
ghost use Rattle.transform.specs.Errors.{Admitted, DriftIsGrowth, bound_of, drift_of, for_planes};

// D(q) for q open planes: what undoing one level adds to a height's error when each coefficient is off by at most 2^q - 1.
pub const DRIFT: [u32; 16] = [
    0, 2, 5, 10, 20, 40, 80, 160, 320, 640, 1280, 2560, 5120, 10240, 20480, 40960,
];

// The drift of that many open planes; none above 15, where the table ends.
pub fn drift(planes: u8) -> Option<u32>
    ensures value { result ≡ for_planes planes (drift_of planes) }
    ensures formula { DriftIsGrowth }
{
    DRIFT.get(usize::from(planes)).copied()
}

// The error to admit for every height, with that many planes open and that many levels to undo; none above 15 planes.
pub fn bound(planes: u8, levels: u8) -> Option<u32>
    ensures value { result ≡ for_planes planes (bound_of planes levels) }
    ensures law { MatchOption result (16 ≤ planes) (λ e. Admitted planes levels e) }
{
    let drift = drift(planes)?;
    Some((1 << planes) - 1 + u32::from(levels) * drift)
}
