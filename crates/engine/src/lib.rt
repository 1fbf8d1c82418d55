// An engine that runs collective jobs, over any operation and any transport.
#![tactic(auto)]

ghost use Rattle.std.specs.Prelude.{◌≡◌, ◌+◌, ◌*◌, ◌^◌, ◌<◌, ◌≤◌, max, length, IfOk, if◌then◌else◌, ◌==◌, nat_lt};
ghost use Rattle.std.specs.List.{AllByRecursion};
ghost use Rattle.programme.specs.declared.Action.TheVariants.{Send, Take};
ghost use Rattle.schedule.specs.Collective.{kind_of, root_of};
ghost use Rattle.machine.specs.Plain.{fit, crowds, tag_of, made, start, turn, sent, took, waits, carry, look, end, abandon};
ghost use Rattle.machine.specs.Job.{listed};
ghost use Rattle.machine.specs.Sound.{Proper};
ghost use Rattle.engine_parts.specs.Outputs.{packed, written};
ghost use Rattle.jobs.specs.declared.job.RankState.{RankState};
ghost use Rattle.jobs.specs.Tables.{result_at, result_count};
ghost use Rattle.machine.specs.Network.{Network, waiting_in_all};
ghost use Rattle.machine.specs.Laws.{RecordLaws};
ghost use Rattle.engine.specs.Abs.{plain, Stands, Steps, Due, place_of, state_taken};
ghost use Rattle.engine.specs.Answers.{start_answer, turn_answer, carry_answer, look_answer, end_answer, HandedBack, abandon_answer};

use answer::{EndFault, StartFault, Tally, Turn, TurnFault, UnknownJob};
use engine_parts::clearing::{LABELS, clear_job};
use engine_parts::inputs::read_inputs;
use engine_parts::mail::{Mail, send_value, take_value};
use engine_parts::outputs::write_block;
use jobs::job::{Job, RankState};
use jobs::table::{MAX_PENDING, Table};
use operation::Operation;
use programme::{Action, Merge};
use ranks::Pair;
use schedule::{Collective, Schedule};
use state::Engine;
use token::Token;
use transport::{Fault, Transport};

pub mod answer;
pub mod state;
pub mod token;

// The most jobs started by one engine.
const MAX_STARTED: u32 = 65535;

// A rank of a pending job.
#[derive(Clone, Copy)]
struct Seat {
    // the job's place
    place: usize,
    rank: usize,
}

impl<O: Operation, T: Transport> Engine<O, T> {
    // An engine without jobs. Every record of its calls keeps the laws of records.
    pub fn new(name: u16, operation: O, transport: T) -> Engine<O, T>
        ensures stands { Stands (T.meaning transport) result }
        ensures fresh { plain (T.meaning transport) result ≡ made name (O.meaning operation) (T.meaning transport) }
        ensures laws { RecordLaws name (O.meaning operation) (T.meaning transport) }
    {
        let clean = is_empty(&transport);
        let jobs = Table::new(Job::blank(operation.unit()));
        Engine {
            transport,
            operation,
            name,
            started: 0,
            clean,
            jobs,
        }
    }

    // How many ranks there are.
    pub fn ranks(&self) -> usize
        ensures { result ≡ (T.meaning self.now.transport).ranks }
    {
        self.transport.ranks()
    }

    // Whether jobs can be started at all.
    fn is_fit(&self) -> bool
        ensures { (origin : Network) → Stands origin self.now → result ≡ fit (plain origin self.now) }
    {
        let width = self.operation.width();
        if !self.clean || width > 6 {
            return false;
        }
        if width >= self.transport.limit() {
            return false;
        }
        self.transport.ranks() > 0
    }

    // Whether one job more could fill the way between two ranks, or the transport.
    fn is_crowded(&self, schedule: Schedule) -> bool
        requires { schedule.ranks ≡ (T.meaning self.now.transport).ranks }
        ensures { (origin : Network) → Stands origin self.now → result ≡ crowds (plain origin self.now) (kind_of schedule.collective) (root_of schedule.collective) }
    {
        if self.jobs.len() >= self.transport.depth() {
            return true;
        }
        let room = self.transport.room();
        let pending = self.jobs.messages();
        overfills(schedule.messages(), pending, room)
    }

    // Starts a job with a block of the words for each rank.
    pub fn start(&mut self, job: Collective, words: &[u32]) -> Result<Token, StartFault>
        ensures step { Steps self.old self.new (start (kind_of job) (root_of job) words.now) (start_answer result) }
        ensures numbered { IfOk result (λ token. 1 ≤ token.number) }
    {
        if !self.is_fit() {
            return Err(StartFault::Unfit);
        }
        let ranks = self.transport.ranks();
        let Some(schedule) = Schedule::new(job, ranks) else {
            return Err(StartFault::BadRoot);
        };
        if words.len() != ranks * self.operation.width() {
            return Err(StartFault::BadLength);
        }
        let inputs = read_inputs(&self.operation, words, ranks)?;
        if self.jobs.len() >= MAX_PENDING {
            return Err(StartFault::FourPending);
        }
        if self.is_crowded(schedule) {
            return Err(StartFault::Crowded);
        }
        if self.started >= MAX_STARTED {
            return Err(StartFault::NumbersSpent);
        }
        let number = self.started + 1;
        self.jobs
            .push(Job::new(number, schedule, inputs, self.operation.unit()));
        self.started = number;
        Ok(Token {
            name: self.name,
            number,
        })
    }

    // Carries one message that is under way between two ranks.
    pub fn carry(&mut self, pair: Pair) -> Result<bool, Fault>
        ensures { Steps self.old self.new (carry pair.from pair.to) (carry_answer result) }
    {
        self.transport.carry(pair)
    }

    // Whether the token is one of this engine's.
    fn is_named_by(&self, token: &Token) -> bool
        ensures { result ≡ (token.now.name == self.now.name) }
    {
        token.name == self.name
    }

    // Whether there is such a rank.
    fn has_rank(&self, rank: usize) -> bool
        ensures { result ≡ nat_lt rank (T.meaning self.now.transport).ranks }
    {
        rank < self.transport.ranks()
    }

    // The place of the token's job.
    fn find(&self, token: &Token) -> Option<usize>
        ensures { result ≡ place_of self.now token.now }
    {
        if !self.is_named_by(token) {
            return None;
        }
        self.jobs.find(token.number)
    }

    // How many ranks of the token's job have no action left.
    pub fn look(&self, token: &Token) -> Result<usize, UnknownJob>
        ensures { Steps self.now self.now (look token.now.name token.now.number) (look_answer result) }
    {
        let place = self.find(token).ok_or(UnknownJob)?;
        Ok(self.jobs.job(place).idle_ranks())
    }

    // Hands the operation and the transport back.
    pub fn into_parts(self) -> (O, T)
        ensures { (result.0 ≡ self.operation) × (result.1 ≡ self.transport) }
    {
        let Engine {
            transport,
            operation,
            name: _,
            started: _,
            clean: _,
            jobs: _,
        } = self;
        (operation, transport)
    }

    // Writes the answer blocks of the token's finished job to the front of the lent words, and removes the job.
    pub fn end(&mut self, token: Token, words: &mut [u32]) -> Result<Tally, (EndFault, Token)>
        ensures step { Steps self.old self.new (end token.name token.number words.old) (end_answer result words.new) }
        ensures refused { HandedBack result token words.old words.new }
    {
        let Some(place) = self.find(&token) else {
            return Err((EndFault::UnknownJob, token));
        };
        let job = self.jobs.job(place);
        if job.idle_ranks() != self.transport.ranks() {
            return Err((EndFault::Unfinished, token));
        }
        if words.len() < job.result_count() * self.operation.width() {
            return Err((EndFault::TooFewWords, token));
        }
        write_results(&self.operation, job, words);
        let tally = Tally {
            rounds: job.rounds(),
            messages: job.sent(),
        };
        self.jobs.remove(place);
        token.spend();
        Ok(tally)
    }

    // Takes out all messages of the token's job, and the job. The token is spent even where there is none.
    pub fn abandon(&mut self, token: Token) -> Result<(), UnknownJob>
        ensures { Steps self.old self.new (abandon token.name token.number) (abandon_answer result) }
    {
        let found = self.find(&token);
        let number = token.number;
        token.spend();
        let place = found.ok_or(UnknownJob)?;
        clear_job(&mut self.transport, number);
        self.jobs.remove(place);
        Ok(())
    }

    // Does the next action of a rank of the token's job, which is a send.
    fn send(&mut self, token: &Token, seat: Seat, to: usize, label: u32)
        requires { Due self.old token.now seat.place seat.rank (Send to label) }
        ensures { Steps self.old self.new (turn token.now.name token.now.number seat.rank) sent }
    {
        let state = self.jobs.job(seat.place).state(seat.rank);
        let stamp = next_stamp(state.departure, state.arrival);
        let pair = Pair {
            from: seat.rank,
            to,
        };
        let tag = job_tag(token.number, label);
        let mail = Mail {
            stamp,
            value: state.value,
        };
        // No reason to refuse a message of a pending job is left.
        send_value(&self.operation, &mut self.transport, pair, tag, mail).unwrap();
        let after = RankState {
            done: state.done + 1,
            departure: stamp,
            ..state
        };
        self.jobs.send(seat.place, seat.rank, after);
    }

    // Does the next action of a rank of the token's job, which is a take, if a message has arrived.
    fn take(&mut self, token: &Token, seat: Seat, from: usize, label: u32, merge: Merge) -> Turn
        requires { Due self.old token.now seat.place seat.rank (Take from label merge) }
        ensures { Steps self.old self.new (turn token.now.name token.now.number seat.rank) (turn_answer (Ok result)) }
    {
        let state = self.jobs.job(seat.place).state(seat.rank);
        let pair = Pair {
            from,
            to: seat.rank,
        };
        let tag = job_tag(token.number, label);
        let Some(mail) = take_value(&self.operation, &mut self.transport, pair, tag) else {
            return Turn::Waiting;
        };
        let after = merged(&self.operation, merge, state, mail);
        self.jobs.receive(seat.place, seat.rank, after, merge, state.done, mail.value);
        Turn::Took
    }

    // One action of a rank for the token's job.
    pub fn turn(&mut self, token: &Token, rank: usize) -> Result<Turn, TurnFault>
        ensures { Steps self.old self.new (turn token.now.name token.now.number rank) (turn_answer result) }
    {
        let place = self.find(token).ok_or(TurnFault::UnknownJob)?;
        if !self.has_rank(rank) {
            return Err(TurnFault::BadRank);
        }
        let Some(action) = self.jobs.job(place).next_action(rank) else {
            return Ok(Turn::Through);
        };
        let seat = Seat { place, rank };
        match action {
            Action::Send { to, label } => {
                self.send(token, seat, to, label);
                Ok(Turn::Sent)
            }
            Action::Take { from, label, merge } => Ok(self.take(token, seat, from, label, merge)),
        }
    }
}

// Whether nothing waits in a transport.
fn is_empty<T: Transport>(transport: &T) -> bool
    ensures { result ≡ (waiting_in_all (T.meaning transport.now) == 0) }
{
    transport.waiting() == 0
}

// The stamp of a rank's next message.
fn next_stamp(departure: u32, arrival: u32) -> u32
    requires { (departure ≤ 66) × (arrival ≤ 66) }
    ensures { result ≡ max departure arrival + 1 }
{
    departure.max(arrival) + 1
}

// The tag of a job's message.
fn job_tag(number: u32, label: u32) -> u32
    requires { (number ≤ 65535) × (label < 16) }
    ensures { result ≡ tag_of number label }
{
    LABELS * number + label
}

// Whether a job's messages and those pending are more than the room.
fn overfills(messages: usize, pending: usize, room: usize) -> bool
    requires { pending ≤ room }
    ensures { result ≡ nat_lt room (pending + messages) }
{
    messages > room - pending
}

// Writes the blocks of what a finished job gives to the front of the lent words.
fn write_results<O: Operation>(operation: &O, job: &Job<O::Element>, words: &mut [u32])
    requires narrow { (O.meaning operation.now).width ≤ 6 }
    requires proper { (d : RankState O.Element) → AllByRecursion (Proper (O.meaning operation.now)) (listed (result_at job.now d) (result_count job.now.schedule.collective job.now.schedule.ranks)) }
    requires room { result_count job.now.schedule.collective job.now.schedule.ranks * (O.meaning operation.now).width ≤ length words.old }
    ensures { (d : RankState O.Element) → words.new ≡ written (packed (O.meaning operation.now) (listed (result_at job.now d) (result_count job.now.schedule.collective job.now.schedule.ranks))) words.old }
{
    for index in 0..job.result_count() {
        write_block(operation, job.result(index), index, words);
    }
}

// The state of a rank after a take.
fn merged<O: Operation>(
    operation: &O,
    merge: Merge,
    state: RankState<O::Element>,
    mail: Mail<O::Element>,
) -> RankState<O::Element>
    requires { (state.done + 1 < 2 ^ 64) × (state.arrival ≤ 66) }
    ensures { result ≡ state_taken (O.meaning operation.now).join merge mail state }
{
    let (value, prefix) = match merge {
        Merge::Replace => (mail.value, state.prefix),
        Merge::Keep => (state.value, state.prefix),
        Merge::Before => (operation.join(mail.value, state.value), state.prefix),
        Merge::After => (operation.join(state.value, mail.value), state.prefix),
        Merge::Prefix => (
            operation.join(mail.value, state.value),
            operation.join(mail.value, state.prefix),
        ),
    };
    RankState {
        done: state.done + 1,
        value,
        prefix,
        arrival: (state.arrival + 1).max(mail.stamp),
        ..state
    }
}
