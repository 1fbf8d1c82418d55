// One collective job from its start to its end, and the layers that it runs over.
ghost use Rattle.std.specs.Mem.{FitsInMemory};
ghost use Rattle.engine.specs.contracts.state.Engine.{the_row as engine_row};

use engine::answer::{EndFault, StartFault, Tally};
use engine::state::Engine;
use engine::token::Token;
use group::Group;
use operation::Operation;
use runner::run;
use schedule::Collective;
use segmented::Segmented;
use shared_log::{Log, Record};
use std::fmt;
use transport::Transport;

// Why a job has no answer.
#[derive(Clone, Copy, Debug)]
pub enum Refusal {
    // it was not started
    Start(StartFault),
    // it was not ended, and so given up; how many ranks were through
    End { fault: EndFault, through: usize },
}

impl From<StartFault> for Refusal {
    fn from(value: StartFault) -> Refusal {
        Refusal::Start(value)
    }
}

impl fmt::Display for Refusal {
    fn fmt<W: fmt::Write>(&self, f: &mut fmt::Formatter<W>) -> fmt::Result {
        let (number, through) = match self {
            Refusal::Start(fault) => (fault.number(), 0),
            Refusal::End { fault, through } => (fault.number(), *through),
        };
        write!(f, "refused {number}, ranks through {through}")
    }
}

// The engine's name, by which its tokens are known.
const NAME: u16 = 1;

// More sweeps than any job among eight ranks needs.
const SWEEPS: usize = 64;

// Enough for two messages of each of 64 pairs in segments of four words.
pub(crate) const RECORDS: usize = 256;

pub(crate) const BLANK: Record = Record {
    from: 0,
    to: 0,
    tag: 0,
    length: 0,
    words: [0; 4],
    arrived: false,
};

// Ends a job, or gives it up where it does not end.
fn settle<O: Operation, T: Transport>(
    engine: &mut Engine<O, T>,
    token: Token,
    out: &mut [u32],
) -> Result<Tally, Refusal> {
    // A slot, so that a look after the end is seen to have no token.
    let mut held = Some(token);
    let through = engine.look(held.as_ref().unwrap()).unwrap_or(0);
    match engine.end(held.take().unwrap(), out) {
        Ok(tally) => Ok(tally),
        Err((fault, back)) => {
            let _ = engine.abandon(back);
            Err(Refusal::End { fault, through })
        }
    }
}

// Starts a job, drives it by sweeps, and ends it.
fn collect<O: Operation, T: Transport>(
    engine: &mut Engine<O, T>,
    job: Collective,
    inputs: &[u32],
    out: &mut [u32],
) -> Result<Tally, Refusal> {
    let token = engine.start(job, inputs)?;
    let _ = run(engine, &token, SWEEPS);
    settle(engine, token, out)
}

// The ranks listed, over a log in the lent records.
pub(crate) fn layers<'a>(records: &'a mut [Record], ranks: &[usize]) -> Group<Segmented<Log<'a>>> {
    let log = Log::new(ranks.len(), records);
    Group::new(Segmented::new(log), ranks)
}

// A job by an operation, each rank of the transport with its block of the inputs. The engine's type fits in memory, which is
// plain wherever the operation and the transport are known.
pub(crate) fn over<O: Operation + Drop, T: Transport + Drop>(
    operation: O,
    transport: T,
    job: Collective,
    inputs: &[u32],
    out: &mut [u32],
) -> Result<Tally, Refusal>
    requires { FitsInMemory (engine_row O.row T.row O.Element.row O.Operation T.Transport) }
{
    let mut engine = Engine::new(NAME, operation, transport);
    let outcome = collect(&mut engine, job, inputs, out);
    let (_operation, _transport) = engine.into_parts();
    outcome
}
