// How what was done is answered, for any instruction: not at all, to the own ID only, or from a status return level on and in a
// reply slot.
#![tactic(auto)]

ghost use Rattle.std.specs.Prelude.{◌≡◌};
ghost use Rattle.device_instructions.specs.Results.{done_in};
ghost use Rattle.device_replies.specs.Replies.{silent, own_only};
ghost use Rattle.device_replies.specs.Results.{level_number, reacted_by, replying_of, told};

use device_instructions::{Fault, ReplyData};

// The status return level from which on an instruction is answered: Ping always, a read, everything else.
#[derive(Clone, Copy, PartialEq, Eq, Debug)]
pub enum Level {
    Ping = 0,
    Read = 1,
    All = 2,
}

// An answer: from which status return level on, which is any number, and in which reply slot.
#[derive(Clone, Copy, PartialEq, Eq, Debug)]
pub struct ReplyAt {
    pub level: u8,
    pub slot: usize,
}

// What was done, and how that is answered, if it is.
#[derive(Clone, Copy)]
pub struct Reacted {
    pub outcome: Result<ReplyData, Fault>,
    pub reply: Option<ReplyAt>,
}

// An answer to the own ID only, from any level on. What was done does not matter: it stands beside the answer in `Reacted`, whatever
// it is. [D10 D31 D34]
pub fn own_only(all: bool, level: u8) -> Option<ReplyAt>
    ensures { replying_of result ≡ own_only all level }
{
    (!all).then_some(ReplyAt { level, slot: 0 })
}

impl Reacted {
    // No answer.
    pub fn unanswered(outcome: Result<ReplyData, Fault>) -> Self
        ensures { (w : _) → told result w ≡ reacted_by silent (done_in outcome w) }
    {
        Reacted {
            outcome,
            reply: None,
        }
    }

    // An answer to the own ID only. [D10 D31 D34]
    pub fn own_only(outcome: Result<ReplyData, Fault>, all: bool, level: Level) -> Self
        ensures { (w : _) → told result w ≡ reacted_by (own_only all (level_number level)) (done_in outcome w) }
    {
        Reacted {
            outcome,
            reply: own_only(all, level as u8),
        }
    }
}
