ghost use Rattle.std.specs.Prelude.{◌≤◌, length};
ghost use Rattle.head.specs.Faults.{Answers};
ghost use Rattle.sender.specs.Frames.{SendsFrame};
ghost use Rattle.sender.specs.Sending.{Sends, slot_fault, survey_of};

use crate::asking::answer;
use crate::{MOST_BITS, SendFault};
use ground::Ground;
use std::alloc::Global;
use walk::Walk;

// Refuses a slot that is too large, and a buffer that cannot hold it. The slot counts bits and the buffer has bytes, so no slice says both.
pub(crate) fn admit(slot: usize, out: &[u8]) -> Result<(), SendFault>
    ensures { Answers result (slot_fault slot out.now) (λ _. Unit {0}) }
{
    if slot > MOST_BITS {
        return Err(SendFault::Slot);
    }
    if !bits::holds(out, slot) {
        return Err(SendFault::Buffer);
    }
    Ok(())
}

// Writes the first bits of the ground's survey into the front of a buffer, as many as the slot has room for, and answers how many.
pub fn send<G: Ground>(
    ground: &G,
    slot: usize,
    out: &mut [u8],
    heap: Global,
) -> Result<usize, SendFault>
    ensures sends { Sends (survey_of (G.headed ground.now) (G.grid ground.now)) slot out.old out.new result }
    ensures of_the_frame { SendsFrame (G.headed ground.now) (G.grid ground.now) }
    ensures never_longer { length (survey_of (G.headed ground.now) (G.grid ground.now)) ≤ 86101 }
{
    admit(slot, out)?;
    let mut walk = Walk::open(ground.head(), heap)?;
    // By number, since `put` is told the bit's place.
    for i in 0..slot {
        let Some(question) = walk.question() else {
            return Ok(i);
        };
        let answer = answer(ground, question);
        walk.step(answer).unwrap();
        bits::put(out, i, answer).unwrap();
    }
    Ok(slot)
}
