// Prints every programme of every collective among 1 to 8 and 13 ranks, with its rounds and messages, from the code. What it has
// to print was written by a script that works the programmes out anew.
#![tactic(auto)]

ghost use Rattle.schedule_tests.specs.Messages.{Agrees};

use programme::{Action, Merge};
use ranks::MAX_RANKS;
use schedule::{Collective, Schedule};
use std::{fmt, io};

// The programmes are those of the messages, written out step by step.
pub fn messages_agree()
    ensures { Agrees }
{}

// A letter for what becomes of a value that is taken.
#[derive(Clone, Copy)]
struct Letter(Merge);

impl fmt::Display for Letter {
    fn fmt<W: fmt::Write>(&self, f: &mut fmt::Formatter<W>) -> fmt::Result {
        f.write_str(match self.0 {
            Merge::Replace => "r",
            Merge::Keep => "k",
            Merge::Before => "b",
            Merge::After => "a",
            Merge::Prefix => "p",
        })
    }
}

// A send to 3 under label 1 as >3:1, and a take from 3 as <3:1 and the letter.
#[derive(Clone, Copy)]
struct Turn(Action);

impl fmt::Display for Turn {
    fn fmt<W: fmt::Write>(&self, f: &mut fmt::Formatter<W>) -> fmt::Result {
        match self.0 {
            Action::Send { to, label } => write!(f, ">{to}:{label}"),
            Action::Take { from, label, merge } => write!(f, "<{from}:{label}{}", Letter(merge)),
        }
    }
}

#[derive(Clone, Copy)]
struct Name(Collective);

impl fmt::Display for Name {
    fn fmt<W: fmt::Write>(&self, f: &mut fmt::Formatter<W>) -> fmt::Result {
        f.write_str(match self.0 {
            Collective::Broadcast { .. } => "broadcast",
            Collective::Gather { .. } => "gather",
            Collective::Reduce { .. } => "reduce",
            Collective::Scan => "scan",
            Collective::Exscan => "exscan",
            Collective::Allreduce => "allreduce",
        })
    }
}

// A rank's programme, and what is past its end, which is nothing.
fn print_rank(rt: &HostRuntime, schedule: &Schedule, rank: usize) -> io::Result<()> {
    let length = schedule.length(rank);
    for index in 0..length {
        if let Some(action) = schedule.action(rank, index) {
            print!(rt; " {}", Turn(action))?;
        }
    }
    if let Some(action) = schedule.action(rank, length) {
        print!(rt; " {}", Turn(action))?;
    }
    rt.print(";")
}

// All ranks, and one past them, which has no actions.
fn print_schedule(rt: &HostRuntime, collective: Collective, ranks: usize) -> io::Result<()> {
    let Some(schedule) = Schedule::new(collective, ranks) else {
        return rt.println("refused");
    };
    let name = Name(schedule.collective());
    let root = schedule.collective().root_or_zero();
    let rounds = schedule.rounds();
    let messages = schedule.messages();
    print!(rt; "{name} {ranks} {root}: {rounds} rounds, {messages} messages:")?;
    for rank in 0..schedule.ranks() {
        print_rank(rt, &schedule, rank)?;
    }
    print_rank(rt, &schedule, ranks)?;
    rt.println("")
}

fn print_all(rt: &HostRuntime, ranks: usize) -> io::Result<()> {
    for root in 0..ranks {
        for collective in [
            Collective::Broadcast { root },
            Collective::Gather { root },
            Collective::Reduce { root },
        ] {
            print_schedule(rt, collective, ranks)?;
        }
    }
    for collective in [Collective::Scan, Collective::Exscan, Collective::Allreduce] {
        print_schedule(rt, collective, ranks)?;
    }
    Ok(())
}

// Besides the schedules: a root that is not among the ranks, no ranks, and too many.
fn main(rt: HostRuntime) -> io::Result<()> {
    for ranks in [1, 2, 3, 4, 5, 6, 7, 8, 13] {
        print_all(&rt, ranks)?;
    }
    for (collective, ranks) in [
        (Collective::Reduce { root: 6 }, 6),
        (Collective::Scan, 0),
        (Collective::Scan, MAX_RANKS + 1),
    ] {
        print_schedule(&rt, collective, ranks)?;
    }
    Ok(())
}
