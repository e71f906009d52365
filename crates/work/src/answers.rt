// What a step answers, and the numbers of an answer.
ghost use Rattle.std.specs.Prelude.{◌≡◌};
ghost use Rattle.work.specs.Answers.{refusal_kind, kind_of, value_of};

// Why a step is refused, each with its kind. A refusal leaves every word of the table as it was.
#[derive(Clone, Copy, Debug, PartialEq, Eq)]
pub enum Refusal {
    // The table isn't sound.
    Unsound = 1,
    // A size is outside its limits, or the length isn't exact.
    BadSize = 2,
    // There is no such task; for a tally, no such state.
    NotThere = 3,
    // The task isn't in the phase asked.
    WrongPhase = 4,
    // There is no such slot.
    NoSlot = 5,
    // There is no such block.
    NoBlock = 6,
    // The block's state or maker doesn't allow it.
    WrongBlock = 7,
    // A slot still names the block.
    StillNamed = 8,
    // No block is free.
    NoneFree = 9,
    // The task has made all it can, or the epoch would pass the last one.
    Exhausted = 10,
    // A block that the task made is neither shown nor retired yet.
    Unshown = 12,
}

// What a step replies that is not refused.
#[derive(Clone, Copy, Debug, PartialEq, Eq)]
pub enum Reply {
    // Done, with the step's value.
    Done(u32),
    // A settle that found the epoch risen: look again.
    LookAgain,
}

pub type Answer = Result<Reply, Refusal>;

impl From<Refusal> for u32 {
    ghost from_gives = { λ refusal kind. kind ≡ refusal_kind refusal };

    fn from(refusal: Refusal) -> u32 {
        refusal as u32
    }
}

// An answer's kind: of a type that is not this crate's, so a function and no method.
pub fn kind_of(answer: Answer) -> u32
    ensures { result ≡ kind_of answer }
{
    match answer {
        Ok(Reply::Done(_)) => 0,
        Ok(Reply::LookAgain) => 11,
        Err(refusal) => u32::from(refusal),
    }
}

// An answer's value: 0 but for a step that is done.
pub fn value_of(answer: Answer) -> u32
    ensures { result ≡ value_of answer }
{
    match answer {
        Ok(Reply::Done(value)) => value,
        _ => 0,
    }
}
