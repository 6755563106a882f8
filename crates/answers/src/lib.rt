// Why a call refuses, with the number of each refusal, and a count or a refusal as C gets it.
#![tactic(auto)]

ghost use Rattle.std.specs.Prelude.{◌≡◌, Ok, Err};
ghost use Rattle.answers.specs.Refusals.{number_of};
ghost use Rattle.answers.specs.Answers.{exported as answers_exported, exported_done as answers_exported_done};

// The refusals and their numbers, in the order of RULES N; which is tested first in a call stands in its definition.
#[derive(Clone, Copy, PartialEq, Eq, Debug)]
pub enum Refusal {
    BadId = 11,
    TooLong = 12,
    BadStuffing = 14,
    NoRoom = 13,
    NotATable = 21,
    BadTableId = 22,
    BadRegistered = 23,
    ShortReply = 24,
    BadReader = 25,
    BadLog = 31,
    BadLogId = 32,
    BadLogSize = 33,
    WrongIndex = 34,
    NotGoals = 41,
    BadGoal = 42,
}

// [N1-N9 N11 N15-N20]
impl From<Refusal> for u8 {
    ghost from_gives = { λ refusal number. number ≡ number_of refusal };

    fn from(refusal: Refusal) -> u8 {
        refusal as u8
    }
}

// A count; the largest number where it is too large for 64 bits with a sign.
pub fn exported_count(n: usize) -> i64
    ensures { result ≡ answers_exported (Ok n) }
{
    i64::try_from(n).unwrap_or(i64::MAX)
}

// Minus the number of a refusal.
pub fn exported_refusal(refusal: Refusal) -> i64
    ensures { result ≡ answers_exported (Err refusal) }
{
    -i64::from(u8::from(refusal))
}

// The answer as C gets it. [G5 N11]
pub fn exported(answer: Result<usize, Refusal>) -> i64
    ensures { result ≡ answers_exported answer }
{
    match answer {
        Ok(n) => exported_count(n),
        Err(refusal) => exported_refusal(refusal),
    }
}

// The answer of a call that has nothing to count: 0 where it is done. [G5 N11]
pub fn exported_done(answer: Result<(), Refusal>) -> i64
    ensures { result ≡ answers_exported_done answer }
{
    match answer {
        Ok(()) => 0,
        Err(refusal) => exported_refusal(refusal),
    }
}
