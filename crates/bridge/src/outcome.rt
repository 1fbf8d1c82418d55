// What a call came to, and how C is told of it.
ghost use Rattle.bridge.specs.Outcome.{word_of, end_status as status_of_end, refusal_number, start_report as report_of_start, refusal_report, status_of, report_of as report_of_outcome};
ghost use Rattle.bridge.specs.declared.outcome.Refusal.TheVariants.{Modulus as BadModulus, Incomplete as NotCompleted};
ghost use Rattle.std.specs.Prelude.{◌≡◌};

use crate::job::Report;
use engine::answer::{EndFault, StartFault, Tally};
use operation::fault::{BlockFault, ModulusFault};
use runner::Incomplete;

// Why a call has no counts to tell.
#[derive(Clone, Copy, PartialEq, Eq, Debug)]
pub enum Refusal {
    // no collective has the number given
    NoCollective,
    // no operation has the number given
    NoOperation,
    Modulus(ModulusFault),
    // the job was made of its numbers, and not completed
    Incomplete(Incomplete),
}

impl From<ModulusFault> for Refusal {
    ghost from_gives = { λ f r. r ≡ BadModulus f };

    fn from(value: ModulusFault) -> Refusal {
        Refusal::Modulus(value)
    }
}

impl From<Incomplete> for Refusal {
    ghost from_gives = { λ i r. r ≡ NotCompleted i };

    fn from(value: Incomplete) -> Refusal {
        Refusal::Incomplete(value)
    }
}

const NO_COLLECTIVE: u32 = 60;

const NO_OPERATION: u32 = 61;

// A job was not finished within the sweeps allowed.
const OUT_OF_SWEEPS: u32 = 42;

const BLANK: Report = Report {
    rounds: 0,
    messages: 0,
    rank: 0,
    fault: 0,
    word: 0,
};

// The status of a job whose end was refused.
fn end_status(fault: EndFault) -> u32
    ensures { result ≡ status_of_end fault }
{
    match fault {
        EndFault::Unfinished => OUT_OF_SWEEPS,
        EndFault::UnknownJob | EndFault::TooFewWords => fault.number(),
    }
}

// The place of a block's wrong word, and 0 where its length is wrong.
fn wrong_word(fault: BlockFault) -> usize
    ensures { result ≡ word_of fault }
{
    match fault {
        BlockFault::WrongLength => 0,
        BlockFault::WrongWord(place) => place,
    }
}

// What is told of a refused start.
fn start_report(fault: StartFault) -> Report
    ensures { result ≡ report_of_start fault }
{
    match fault {
        StartFault::BadBlock { rank, fault } => Report {
            rank,
            fault: fault.number(),
            word: wrong_word(fault),
            ..BLANK
        },
        _ => BLANK,
    }
}

impl Refusal {
    // The status that tells it.
    fn number(self) -> u32
        ensures { result ≡ refusal_number self }
    {
        match self {
            Refusal::NoCollective => NO_COLLECTIVE,
            Refusal::NoOperation => NO_OPERATION,
            Refusal::Modulus(fault) => fault.number(),
            Refusal::Incomplete(Incomplete::Start(fault)) => fault.number(),
            Refusal::Incomplete(Incomplete::End(fault)) => end_status(fault),
        }
    }

    // What is told beside the status.
    fn report(self) -> Report
        ensures { result ≡ refusal_report self }
    {
        match self {
            Refusal::Incomplete(Incomplete::Start(fault)) => start_report(fault),
            _ => BLANK,
        }
    }
}

// The counts of a job that ended, or what is told of a refusal.
fn report_of(outcome: Result<Tally, Refusal>) -> Report
    ensures { result ≡ report_of_outcome outcome }
{
    match outcome {
        Ok(tally) => Report {
            rounds: tally.rounds,
            messages: tally.messages,
            ..BLANK
        },
        Err(refusal) => refusal.report(),
    }
}

// Writes the report, and answers the status: 0, or the refusal's number.
pub(crate) fn tell(outcome: Result<Tally, Refusal>, report: &mut Report) -> u32
    ensures status { result ≡ status_of outcome }
    ensures report { report.new ≡ report_of_outcome outcome }
{
    *report = report_of(outcome);
    match outcome {
        Ok(_) => 0,
        Err(refusal) => refusal.number(),
    }
}
