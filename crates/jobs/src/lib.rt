// The pending jobs of an engine, by place.
#![tactic(auto)]

ghost use Rattle.std.specs.Prelude.{◌≡◌, ℕ, ◌+◌, ◌^◌, ◌<◌, ◌≤◌, true, [], ◌∷◌, ◌++◌, map, length, is_some, slice_index_or, ◌==◌};
ghost use Rattle.std.specs.List.{slice_get, remove};
ghost use Rattle.ranks.specs.Ranks.{most_ranks, greatest_below};
ghost use Rattle.programme.specs.declared.Merge.TheVariants.{Keep};
ghost use Rattle.schedule.specs.Collective.{actions_of, messages_of};
ghost use Rattle.jobs.specs.declared.job.Job.{Job};
ghost use Rattle.jobs.specs.declared.job.RankState.{RankState};
ghost use Rattle.jobs.specs.Tables.{states, first_state, first_job, pending_jobs, place, with_state, with_sent, with_received, idle_at, idle_below, arrival_at, gathered_at, result_count, result_at, messages_in};
ghost use Rattle.jobs.specs.Updates.{update};

use job::{Job, RankState};
use programme::{Action, Merge};
use ranks::MAX_RANKS;
use schedule::{Collective, Schedule};
use table::{MAX_PENDING, Table};

pub mod job;
pub mod table;

impl<E: Copy> Job<E> {
    // A job of which no action is done. Inlined, since it is some kilobytes to hand on.
    #[inline(always)]
    pub fn new(number: u32, schedule: Schedule, inputs: [E; MAX_RANKS], unit: E) -> Job<E>
        ensures { result ≡ first_job number schedule inputs unit }
    {
        let mut states = [first_state(unit, unit); MAX_RANKS];
        hold_inputs(&mut states, &inputs, unit);
        Job {
            number,
            schedule,
            inputs,
            states,
            kept: [unit; MAX_RANKS],
            sent: 0,
        }
    }

    // What stands in a place that no job has.
    pub fn blank(x: E) -> Job<E> {
        Job {
            number: 0,
            schedule: Schedule::new(Collective::Scan, 1).unwrap(),
            inputs: [x; MAX_RANKS],
            states: [first_state(x, x); MAX_RANKS],
            kept: [x; MAX_RANKS],
            sent: 0,
        }
    }

    // What a rank has come to.
    pub fn state(&self, rank: usize) -> RankState<E>
        requires { rank < most_ranks }
        ensures { (d : RankState E) → result ≡ slice_index_or (states self.now) rank d }
    {
        self.states[rank]
    }

    // The rank's next action, None where it has none left.
    pub fn next_action(&self, rank: usize) -> Option<Action>
        requires { rank < self.now.schedule.ranks }
        ensures here { (d : RankState E) → result ≡ slice_get (actions_of self.now.schedule.collective self.now.schedule.ranks rank) (slice_index_or (states self.now) rank d).done }
        ensures few { is_some result ≡ true → (d : RankState E) → (slice_index_or (states self.now) rank d).done + 1 < 2 ^ 64 }
    {
        let done = self.state(rank).done;
        if done >= self.schedule.length(rank) {
            return None;
        }
        self.schedule.action(rank, done)
    }

    // Whether a rank has no action left.
    fn is_idle(&self, rank: usize) -> bool
        requires { rank < self.now.schedule.ranks }
        ensures { (d : RankState E) → result ≡ idle_at self.now d rank }
    {
        self.state(rank).done >= self.schedule.length(rank)
    }

    // How many ranks have no action left.
    pub fn idle_ranks(&self) -> usize
        ensures { (d : RankState E) → result ≡ idle_below self.now d self.now.schedule.ranks }
    {
        let ranks = self.schedule.ranks();
        let mut idle = 0;
        for rank in 0..ranks {
            if self.is_idle(rank) {
                idle += 1;
            }
        }
        idle
    }

    // The greatest arrival among the ranks.
    pub fn rounds(&self) -> u32
        ensures { (d : RankState E) → result ≡ greatest_below (arrival_at self.now d) self.now.schedule.ranks }
    {
        let mut rounds = 0;
        for rank in 0..self.schedule.ranks() {
            rounds = rounds.max(self.state(rank).arrival);
        }
        rounds
    }

    // The turns answered sent.
    pub fn sent(&self) -> usize
        ensures { result ≡ self.now.sent }
    {
        self.sent
    }

    // The messages of the job, by the formula.
    fn messages(&self) -> usize
        ensures { result ≡ messages_of self.now.schedule.collective self.now.schedule.ranks }
    {
        self.schedule.messages()
    }

    // How many elements a finished job gives.
    pub fn result_count(&self) -> usize
        ensures { result ≡ result_count self.now.schedule.collective self.now.schedule.ranks }
    {
        match self.schedule.collective() {
            Collective::Reduce { .. } => 1,
            Collective::Broadcast { .. }
            | Collective::Gather { .. }
            | Collective::Scan
            | Collective::Exscan
            | Collective::Allreduce => self.schedule.ranks(),
        }
    }

    // The element at an index of what a finished job gives.
    pub fn result(&self, index: usize) -> E
        requires { index < most_ranks }
        ensures { (d : RankState E) → result ≡ result_at self.now d index }
    {
        match self.schedule.collective() {
            Collective::Gather { root } => self.gathered(root, index),
            Collective::Reduce { root } => self.state(root).value,
            Collective::Exscan => self.state(index).prefix,
            Collective::Broadcast { .. } | Collective::Scan | Collective::Allreduce => {
                self.state(index).value
            }
        }
    }

    // What the root of a gather has from a rank: its own value, or what it kept, in the order of the ranks.
    fn gathered(&self, root: usize, rank: usize) -> E
        requires { (root < most_ranks) × (rank < most_ranks) }
        ensures { (d : RankState E) → result ≡ gathered_at self.now d root rank }
    {
        if rank < root {
            self.kept[rank]
        } else if rank == root {
            self.state(root).value
        } else {
            self.kept[rank - 1]
        }
    }

    // What a send leaves: the rank's new state, and one more turn answered sent.
    pub fn send(&mut self, rank: usize, state: RankState<E>)
        requires { (rank < most_ranks) × (self.old.sent + 1 < 2 ^ 64) }
        ensures { self.new ≡ with_sent rank state self.old }
    {
        let sent = self.sent + 1;
        self.put(rank, state, sent);
    }

    // What a take leaves: the rank's new state, and the value where the rank keeps it.
    pub fn receive(&mut self, rank: usize, state: RankState<E>, merge: Merge, at: usize, value: E)
        requires { (rank < most_ranks) × (merge ≡ Keep → at < most_ranks) }
        ensures changed { self.new ≡ with_received rank state merge at value self.old }
        ensures room { length self.old.kept ≡ most_ranks }
    {
        if merge == Merge::Keep {
            self.kept[at] = value;
        }
        let sent = self.sent;
        self.put(rank, state, sent);
    }

    // Writes what a rank has come to, and the count of turns answered sent.
    fn put(&mut self, rank: usize, state: RankState<E>, sent: usize)
        requires { rank < most_ranks }
        ensures { self.new ≡ with_state rank state sent self.old }
    {
        self.states[rank] = state;
        self.sent = sent;
    }
}

// Lets each rank hold its input.
#[inline(always)]
fn hold_inputs<E: Copy>(states: &mut [RankState<E>], inputs: &[E], unit: E)
    requires { length states.old ≡ length inputs.now }
    ensures { states.new ≡ map (first_state unit) inputs.now }
{
    for (rank, state) in states.iter_mut().enumerate() {
        *state = first_state(unit, inputs[rank]);
    }
}

// A rank that holds its input, of which no action is done.
fn first_state<E: Copy>(unit: E, input: E) -> RankState<E>
    ensures { result ≡ first_state unit input }
{
    RankState {
        done: 0,
        value: input,
        prefix: unit,
        arrival: 0,
        departure: 0,
    }
}

impl<E: Copy> Table<E> {
    // A table without jobs.
    pub fn new(blank: Job<E>) -> Table<E>
        ensures { pending_jobs result ≡ [] }
    {
        Table {
            jobs: [blank; MAX_PENDING],
            pending: 0,
        }
    }

    // How many jobs are pending.
    pub fn len(&self) -> usize
        ensures { result ≡ length (pending_jobs self.now) }
    {
        self.pending
    }

    // The messages of all pending jobs, by the formulas.
    pub fn messages(&self) -> usize
        requires { messages_in (pending_jobs self.now) < 2 ^ 64 }
        ensures { result ≡ messages_in (pending_jobs self.now) }
    {
        self.jobs[..self.pending].iter().map(Job::messages).sum()
    }

    // The pending job at a place.
    pub fn job(&self, i: usize) -> &Job<E>
        requires { i < length (pending_jobs self.now) }
        ensures { (d : Job E) → result.now ≡ slice_index_or (pending_jobs self.now) i d }
    {
        &self.jobs[i]
    }

    // The place of the pending job of that number.
    pub fn find(&self, number: u32) -> Option<usize>
        ensures { result ≡ place number (pending_jobs self.now) }
    {
        self.jobs[..self.pending].iter().position(
            |job| -> bool
                ensures { result ≡ (job.now.number == number) }
            { job.number == number },
        )
    }

    // What a send of a rank of the job at a place leaves.
    pub fn send(&mut self, i: usize, rank: usize, state: RankState<E>)
        requires { (i < length (pending_jobs self.old)) × (rank < most_ranks) × ((d : Job E) → (slice_index_or (pending_jobs self.old) i d).sent + 1 < 2 ^ 64) }
        ensures { pending_jobs self.new ≡ update i (with_sent rank state) (pending_jobs self.old) }
    {
        self.jobs[i].send(rank, state);
    }

    // What a take of a rank of the job at a place leaves.
    pub fn receive(
        &mut self,
        i: usize,
        rank: usize,
        state: RankState<E>,
        merge: Merge,
        at: usize,
        value: E,
    )
        requires { (i < length (pending_jobs self.old)) × (rank < most_ranks) × (merge ≡ Keep → at < most_ranks) }
        ensures changed { pending_jobs self.new ≡ update i (with_received rank state merge at value) (pending_jobs self.old) }
        ensures room { (d : Job E) → length (slice_index_or (pending_jobs self.old) i d).kept ≡ most_ranks }
    {
        self.jobs[i].receive(rank, state, merge, at, value);
    }

    // Adds a job behind the others.
    pub fn push(&mut self, job: Job<E>)
        requires { length (pending_jobs self.old) < 4 }
        ensures { pending_jobs self.new ≡ pending_jobs self.old ++ (job ∷ []) }
    {
        self.jobs[self.pending] = job;
        self.pending += 1;
    }

    // Removes the job at a place; the later ones move up.
    pub fn remove(&mut self, i: usize)
        requires { i < length (pending_jobs self.old) }
        ensures { pending_jobs self.new ≡ remove (pending_jobs self.old) i }
    {
        let last = self.pending - 1;
        // A loop, since the library for C would need memmove for copy_within.
        for place in i..last {
            self.jobs[place] = self.jobs[place + 1];
        }
        self.pending = last;
    }
}
