// What the calls of an engine answer.
ghost use Rattle.std.specs.Prelude.{◌≡◌};
ghost use Rattle.machine.specs.Call.{number_of, no_job};
ghost use Rattle.engine.specs.Answers.{turn_refusal, start_refusal, end_refusal};
ghost use Rattle.engine.specs.declared.answer.StartFault.TheVariants.{BadBlock as Refused};

use engine_parts::inputs::BadBlock;
use operation::fault::BlockFault;

// What a turn came to.
#[derive(Clone, Copy, PartialEq, Eq, Debug)]
pub enum Turn {
    Sent,
    Took,
    // nothing fitting has arrived
    Waiting,
    // no action is left
    Through,
}

// The rounds and the messages of a job.
#[derive(Clone, Copy, PartialEq, Eq, Debug)]
pub struct Tally {
    pub rounds: u32,
    pub messages: usize,
}

// No pending job has the token's name and number.
#[derive(Clone, Copy, PartialEq, Eq, Debug)]
pub struct UnknownJob;

// Why a turn is refused.
#[derive(Clone, Copy, PartialEq, Eq, Debug)]
pub enum TurnFault {
    UnknownJob,
    BadRank,
}

// Why a start is refused.
#[derive(Clone, Copy, PartialEq, Eq, Debug)]
pub enum StartFault {
    // no ranks, blocks too wide, or something waited when the engine was made
    Unfit,
    // the root is no rank
    BadRoot,
    // not a block for each rank
    BadLength,
    // the first rank whose block the operation refuses, and why
    BadBlock { rank: usize, fault: BlockFault },
    // as many jobs are pending as may be
    FourPending,
    // the pending jobs and this one could meet the transport's depth or room
    Crowded,
    // all numbers were handed out
    NumbersSpent,
}

// Why an end is refused.
#[derive(Clone, Copy, PartialEq, Eq, Debug)]
pub enum EndFault {
    UnknownJob,
    // some rank has actions left
    Unfinished,
    // the lent words are fewer than those of the answer blocks
    TooFewWords,
}

impl From<BadBlock> for StartFault {
    ghost from_gives = { λ b r. r ≡ Refused b.rank b.fault };

    fn from(value: BadBlock) -> StartFault {
        StartFault::BadBlock {
            rank: value.rank,
            fault: value.fault,
        }
    }
}

impl UnknownJob {
    pub fn number(self) -> u32
        ensures { result ≡ number_of no_job }
    {
        30
    }
}

impl TurnFault {
    pub fn number(self) -> u32
        ensures { result ≡ number_of (turn_refusal self) }
    {
        match self {
            TurnFault::UnknownJob => 30,
            TurnFault::BadRank => 31,
        }
    }
}

impl StartFault {
    pub fn number(self) -> u32
        ensures { result ≡ number_of (start_refusal self) }
    {
        match self {
            StartFault::Unfit => 20,
            StartFault::BadRoot => 21,
            StartFault::BadLength => 22,
            StartFault::BadBlock { .. } => 23,
            StartFault::FourPending => 24,
            StartFault::Crowded => 25,
            StartFault::NumbersSpent => 26,
        }
    }
}

impl EndFault {
    pub fn number(self) -> u32
        ensures { result ≡ number_of (end_refusal self) }
    {
        match self {
            EndFault::UnknownJob => 30,
            EndFault::Unfinished => 32,
            EndFault::TooFewWords => 33,
        }
    }
}
