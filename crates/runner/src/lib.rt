// Drives one job by sweeps, and runs one from its start to its end.
#![tactic(auto)]

ghost use Rattle.std.specs.Prelude.{◌≡◌, ◌<◌, ◌≤◌, true, ◌==◌};
ghost use Rattle.machine.specs.Network.{Network};
ghost use Rattle.machine.specs.Call.{look};
ghost use Rattle.machine.specs.Plain.{step};
ghost use Rattle.engine.specs.Abs.{plain, Stands};
ghost use Rattle.runner.specs.Sweeps.{turns, carries_from, carries, sweep, sweeps, tells_finished, Runs};
ghost use Rattle.runner.specs.Complete.{Completes, Unwritten, Finishes, Does};
ghost use Rattle.runner.specs.declared.Incomplete.TheVariants.{Start as NotStarted, End as NotEnded};

use engine::answer::{EndFault, StartFault, Tally};
use engine::state::Engine;
use engine::token::Token;
use operation::Operation;
use ranks::Pair;
use schedule::Collective;
use transport::Transport;

// How far a job was driven.
#[derive(Clone, Copy)]
pub struct Driven {
    pub sweeps: usize,
    pub finished: bool,
}

// Why a job was not completed.
#[derive(Clone, Copy, PartialEq, Eq, Debug)]
pub enum Incomplete {
    // it was not started
    Start(StartFault),
    // it was not ended, and so abandoned
    End(EndFault),
}

impl From<StartFault> for Incomplete {
    ghost from_gives = { λ f r. r ≡ NotStarted f };

    fn from(value: StartFault) -> Incomplete {
        Incomplete::Start(value)
    }
}

impl From<EndFault> for Incomplete {
    ghost from_gives = { λ f r. r ≡ NotEnded f };

    fn from(value: EndFault) -> Incomplete {
        Incomplete::End(value)
    }
}

// A turn of each rank, upwards.
fn turn_all<O: Operation, T: Transport>(engine: &mut Engine<O, T>, token: &Token, ranks: usize)
    ensures { Runs engine.old engine.new (turns token.now.name token.now.number ranks) }
{
    for rank in 0..ranks {
        let _ = engine.turn(token, rank);
    }
}

// A carry from one rank to each other.
fn carry_from<O: Operation, T: Transport>(engine: &mut Engine<O, T>, from: usize, ranks: usize)
    ensures { Runs engine.old engine.new (carries_from from ranks) }
{
    for to in 0..ranks {
        if to != from {
            let _ = engine.carry(Pair { from, to });
        }
    }
}

// A carry for each ordered pair.
fn carry_all<O: Operation, T: Transport>(engine: &mut Engine<O, T>, ranks: usize)
    ensures { Runs engine.old engine.new (carries ranks ranks) }
{
    for from in 0..ranks {
        carry_from(engine, from, ranks);
    }
}

// One sweep: a turn of each rank, then a carry for each ordered pair.
fn sweep_once<O: Operation, T: Transport>(engine: &mut Engine<O, T>, token: &Token, ranks: usize)
    ensures { Runs engine.old engine.new (sweep token.now.name token.now.number ranks) }
{
    turn_all(engine, token, ranks);
    carry_all(engine, ranks);
}

// Whether so many idle ranks are all of them.
fn are_all(idle: usize, ranks: usize) -> bool
    ensures { result ≡ (idle == ranks) }
{
    idle == ranks
}

// Whether all ranks have no action left.
fn is_finished<O: Operation, T: Transport>(
    engine: &Engine<O, T>,
    token: &Token,
    ranks: usize,
) -> bool
    ensures { (origin : Network) → Stands origin engine.now → result ≡ tells_finished ranks (step (plain origin engine.now) (look token.now.name token.now.number)).0 }
{
    match engine.look(token) {
        Ok(idle) => are_all(idle, ranks),
        Err(_) => false,
    }
}

// Sweeps until the token's job is finished or as many sweeps are done as were allowed.
pub fn run<O: Operation, T: Transport>(
    engine: &mut Engine<O, T>,
    token: &Token,
    budget: usize,
) -> Driven
    ensures did { Runs engine.old engine.new (sweeps token.now.name token.now.number (T.meaning engine.old.transport).ranks result.sweeps) }
    ensures within { result.sweeps ≤ budget }
    ensures stopped { result.sweeps < budget → result.finished ≡ true }
    ensures told { (origin : Network) → Stands origin engine.new → result.finished ≡ tells_finished (T.meaning engine.old.transport).ranks (step (plain origin engine.new) (look token.now.name token.now.number)).0 }
{
    let ranks = engine.ranks();
    for sweeps in 0..budget {
        if is_finished(engine, token, ranks) {
            return Driven {
                sweeps,
                finished: true,
            };
        }
        sweep_once(engine, token, ranks);
    }
    Driven {
        sweeps: budget,
        finished: is_finished(engine, token, ranks),
    }
}

// Ends the token's job; where that is refused, abandons it.
fn finish<O: Operation, T: Transport>(
    engine: &mut Engine<O, T>,
    token: Token,
    out: &mut [u32],
) -> Result<Tally, EndFault>
    ensures did { Finishes engine.old engine.new token.name token.number out.old out.new result }
    ensures refused { Unwritten result out.old out.new }
{
    match engine.end(token, out) {
        Ok(tally) => Ok(tally),
        Err((fault, back)) => {
            let _ = engine.abandon(back);
            Err(fault)
        }
    }
}

// Runs one job from its start to its end, with no more sweeps than allowed: on a new engine what it gives is the
// collective's answer. A job that was started and cannot be ended is abandoned.
pub fn complete<O: Operation, T: Transport>(
    engine: &mut Engine<O, T>,
    job: Collective,
    inputs: &[u32],
    budget: usize,
    out: &mut [u32],
) -> Result<Tally, Incomplete>
    ensures answered { Completes engine.old job inputs.now out.old out.new result }
    ensures refused { Unwritten result out.old out.new }
    ensures did { Does engine.old engine.new job inputs.now out.old out.new budget result }
{
    let token = engine.start(job, inputs)?;
    let _ = run(engine, &token, budget);
    let tally = finish(engine, token, out)?;
    Ok(tally)
}
