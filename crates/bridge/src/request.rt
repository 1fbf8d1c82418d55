// A job whose numbers were read, and its run on an engine.
ghost use Rattle.std.specs.Prelude.{◌≡◌, MatchResult};
ghost use Rattle.std.specs.contracts.option.Option.{the_row as option_row};
ghost use Rattle.operation.specs.contracts.affine.Affine.{the_row as maps_row};
ghost use Rattle.operation.specs.contracts.affine.AffineElement.{the_row as map_row};
ghost use Rattle.operation.specs.contracts.text.Text.{the_row as texts_row};
ghost use Rattle.operation.specs.contracts.text.Counts.{the_row as counts_row};
ghost use Rattle.operation.specs.contracts.least.Least.{the_row as leasts_row};
ghost use Rattle.operation.specs.contracts.least.Placed.{the_row as placed_row};
ghost use Rattle.segmented.specs.Segments.{new_segmented};
ghost use Rattle.bridge.specs.Fits.{EngineFits};
ghost use Rattle.bridge.specs.Given.{collective_at};
ghost use Rattle.bridge.specs.Request.{Reduces, NotReduced, Reads, NotRead, RunsWith, Runs};

use crate::job::Job;
use crate::outcome::Refusal;
use engine::answer::Tally;
use engine::state::Engine;
use group::Group;
use operation::Operation;
use operation::affine::Affine;
use operation::least::Least;
use operation::text::Text;
use runner::{Incomplete, complete};
use schedule::Collective;
use segmented::Segmented;
use transport::Transport;

// By which operation the elements are joined.
#[derive(Clone, Copy)]
pub enum Reduction {
    Maps(Affine),
    Texts,
    Leasts,
}

impl Reduction {
    // The operation that a job names.
    fn of(job: &Job) -> Result<Reduction, Refusal>
        ensures { MatchResult result (Reduces job.now) (NotReduced job.now) }
    {
        match job.operation {
            0 => Ok(Reduction::Maps(Affine::new(job.modulus)?)),
            1 => Ok(Reduction::Texts),
            2 => Ok(Reduction::Leasts),
            _ => Err(Refusal::NoOperation),
        }
    }
}

// The collective of a number.
fn collective_of(code: u32, root: usize) -> Option<Collective>
    ensures { result ≡ collective_at code root }
{
    match code {
        0 => Some(Collective::Broadcast { root }),
        1 => Some(Collective::Gather { root }),
        2 => Some(Collective::Reduce { root }),
        3 => Some(Collective::Scan),
        4 => Some(Collective::Exscan),
        5 => Some(Collective::Allreduce),
        _ => None,
    }
}

// The engine's name, by which its tokens are known.
const NAME: u16 = 1;

// A job of which each rank has its block of the inputs.
#[derive(Clone, Copy)]
pub struct Request<'a> {
    pub collective: Collective,
    pub reduction: Reduction,
    pub sweeps: usize,
    pub inputs: &'a [u32],
}

impl<'a> Request<'a> {
    // The request of a job's numbers.
    pub(crate) fn of(job: &Job, inputs: &'a [u32]) -> Result<Request<'a>, Refusal>
        ensures { MatchResult result (Reads job.now inputs.now) (NotRead job.now) }
    {
        let collective = collective_of(job.collective, job.root).ok_or(Refusal::NoCollective)?;
        let reduction = Reduction::of(job)?;
        Ok(Request {
            collective,
            reduction,
            sweeps: job.sweeps,
            inputs,
        })
    }

    // Runs the job from its start to its end on a new engine, by that operation, among the members listed of the ranks below.
    fn run_with<O: Operation + Drop, T: Transport + Drop>(
        &self,
        operation: O,
        below: T,
        members: &[usize],
        out: &mut [u32],
    ) -> Result<Tally, Incomplete>
        requires { EngineFits O.row O.Element.row T.row O.Operation T.Transport ⟦<Segmented<T> as Transport>⟧ ⟦<Group<Segmented<T>> as Transport>⟧ }
        ensures { RunsWith self.now (new_segmented T.most (T.meaning below)) members.now out.old out.new result (O.meaning operation) }
    {
        let group = Group::new(Segmented::new(below), members);
        let mut engine = Engine::new(NAME, operation, group);
        let outcome = complete(&mut engine, self.collective, self.inputs, self.sweeps, out);
        let (_operation, _group) = engine.into_parts();
        outcome
    }

    // The same by the request's operation.
    pub(crate) fn run<T: Transport + Drop>(
        &self,
        below: T,
        members: &[usize],
        out: &mut [u32],
    ) -> Result<Tally, Incomplete>
        requires maps { EngineFits maps_row map_row T.row ⟦<Affine as Operation>⟧ T.Transport ⟦<Segmented<T> as Transport>⟧ ⟦<Group<Segmented<T>> as Transport>⟧ }
        requires texts { EngineFits texts_row (option_row counts_row) T.row ⟦<Text as Operation>⟧ T.Transport ⟦<Segmented<T> as Transport>⟧ ⟦<Group<Segmented<T>> as Transport>⟧ }
        requires leasts { EngineFits leasts_row (option_row placed_row) T.row ⟦<Least as Operation>⟧ T.Transport ⟦<Segmented<T> as Transport>⟧ ⟦<Group<Segmented<T>> as Transport>⟧ }
        ensures { Runs self.now (new_segmented T.most (T.meaning below)) members.now out.old out.new result }
    {
        match self.reduction {
            Reduction::Maps(maps) => self.run_with(maps, below, members, out),
            Reduction::Texts => self.run_with(Text, below, members, out),
            Reduction::Leasts => self.run_with(Least, below, members, out),
        }
    }
}
