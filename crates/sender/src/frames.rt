// Sending what a closed frame holds.
ghost use Rattle.std.specs.Prelude.{Bool, List};
ghost use Rattle.sender.specs.Frames.{BothGroundsAlike, FrameSurvey, OneSurvey};
ghost use Rattle.sender.specs.Sending.{Sends};

use crate::SendFault;
use crate::sending::{admit, send};
use frame::ClosedFrame;
use ground::PeakGrid;
use std::alloc::Global;

// Sends the first bits of a frame's survey.
pub fn send_frame(
    frame: &ClosedFrame,
    slot: usize,
    out: &mut [u8],
    heap: Global,
) -> Result<usize, SendFault>
    ensures { (bits : List Bool) → FrameSurvey frame.now bits → Sends bits slot out.old out.new result }
{
    admit(slot, out)?;
    let ground = PeakGrid::of(frame, heap)?;
    send(&ground, slot, out, heap)
}

// What is sent of a frame is the same for every ground of it.
pub fn laws()
    ensures one_survey { OneSurvey }
    ensures both_grounds_send_the_same { BothGroundsAlike }
{}
