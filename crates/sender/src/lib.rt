// Sending the survey of a ground, bit by bit.
#![tactic(auto)]

ghost use Rattle.std.specs.Prelude.{◌≡◌};
ghost use Rattle.sender.specs.Refusals.{refusal_of};
ghost use Rattle.sender.specs.declared.SendFault.TheVariants.{Memory};

use head::refusals::Refusal;
use std::alloc::AllocError;

mod asking;
mod frames;
mod sending;

pub use frames::{laws, send_frame};
pub use sending::send;

// The most bits that a survey can have, and that a slot may name.
pub const MOST_BITS: usize = 86101;

// Why nothing is sent.
#[derive(Clone, Copy, PartialEq, Eq, Debug)]
pub enum SendFault {
    // The slot names more bits than a survey can have.
    Slot,
    // The buffer cannot hold the slot.
    Buffer,
    // No memory to ask with. This is no refusal.
    Memory,
}

impl From<AllocError> for SendFault {
    ghost from_gives = { λ _ r. r ≡ Memory };

    fn from(_e: AllocError) -> SendFault {
        SendFault::Memory
    }
}

impl SendFault {
    // The refusal that it is, if it is one.
    pub fn refusal(self) -> Option<Refusal>
        ensures { result ≡ refusal_of self }
    {
        match self {
            SendFault::Slot => Some(Refusal::Slot),
            SendFault::Buffer => Some(Refusal::Buffer),
            SendFault::Memory => None,
        }
    }
}
