// Allreduce: as many ranks as the greatest power of two exchange in pairs, step by step. The others, which are the surplus,
// hand their value in at first and are handed the result at the end: below twice the surplus, even ranks are these.
ghost use Rattle.std.specs.Prelude.{◌≡◌, ◌+◌, ◌*◌, ◌^◌, ◌<◌, ◌≤◌, if◌then◌else◌, ◌==◌};
ghost use Rattle.programme.specs.Levels.{floor_log, surplus};
ghost use Rattle.programme.specs.Programme.{allreduce};
ghost use Rattle.ranks.specs.Ranks.{most_ranks};
ghost use Rattle.schedule.specs.Part.{handed_in, for_two};
ghost use Rattle.schedule.specs.Role.{actions_of};
ghost use Rattle.std.specs.List.{slice_get};

use crate::exchange::Exchange;
use crate::label;
use crate::member::Member;
use crate::part::Part;
use crate::powers::{floor_log2, power, surplus_of};
use programme::{Action, Merge};

// What a rank does, by its place.
#[derive(Clone, Copy)]
pub(crate) enum Allreduce {
    // It exchanges for itself alone.
    Alone { exchange: Exchange },
    // It hands its value in to another rank, which hands the result back.
    HandsIn { other: usize },
    // It exchanges for another rank too.
    ForTwo { other: usize, exchange: Exchange },
}

impl Allreduce {
    pub(crate) fn new(member: Member) -> Allreduce
        ensures { actions_of result ≡ allreduce member.ranks member.rank }
    {
        let Member { ranks, rank } = member;
        let surplus = surplus_of(ranks);
        if rank >= 2 * surplus {
            let number = rank - surplus;
            Allreduce::Alone {
                exchange: Exchange { ranks, number },
            }
        } else if rank % 2 == 0 {
            Allreduce::HandsIn { other: rank + 1 }
        } else {
            let number = rank / 2;
            Allreduce::ForTwo {
                other: rank - 1,
                exchange: Exchange { ranks, number },
            }
        }
    }
}

impl Part for Allreduce {
    ghost actions = { actions_of };

    fn action(self, index: usize) -> Option<Action> {
        match self {
            Allreduce::Alone { exchange } => exchange.action(index),
            Allreduce::HandsIn { other } => hand_in(other, index),
            Allreduce::ForTwo { other, exchange } => exchange_for(other, exchange, index),
        }
    }

    fn length(self) -> usize {
        match self {
            Allreduce::Alone { exchange } => exchange.length(),
            Allreduce::HandsIn { .. } => 2,
            Allreduce::ForTwo { exchange, .. } => exchange.length() + 2,
        }
    }
}

// The actions of a rank that hands its value in.
fn hand_in(other: usize, index: usize) -> Option<Action>
    ensures { result ≡ slice_get (handed_in other) index }
{
    match index {
        0 => Some(Action::Send {
            to: other,
            label: label::HAND_IN,
        }),
        1 => Some(Action::Take {
            from: other,
            label: label::HAND_BACK,
            merge: Merge::Replace,
        }),
        _ => None,
    }
}

// The actions of a rank that exchanges for another too.
fn exchange_for(other: usize, exchange: Exchange, index: usize) -> Option<Action>
    ensures { result ≡ slice_get (for_two other exchange.ranks exchange.number) index }
{
    let end = exchange.length() + 1;
    if index == 0 {
        Some(Action::Take {
            from: other,
            label: label::HAND_IN,
            merge: Merge::Before,
        })
    } else if index < end {
        exchange.action(index - 1)
    } else if index == end {
        Some(Action::Send {
            to: other,
            label: label::HAND_BACK,
        })
    } else {
        None
    }
}

pub(crate) fn rounds(ranks: usize) -> usize
    requires { 0 < ranks }
    ensures { result ≡ (if surplus ranks == 0 then floor_log ranks else floor_log ranks + 2) }
{
    let steps = floor_log2(ranks);
    if surplus_of(ranks) == 0 {
        steps
    } else {
        steps + 2
    }
}

pub(crate) fn messages(ranks: usize) -> usize
    requires { (0 < ranks) × (ranks ≤ most_ranks) }
    ensures { result ≡ 2 ^ floor_log ranks * floor_log ranks + 2 * surplus ranks }
{
    let steps = floor_log2(ranks);
    power(steps) * steps + 2 * surplus_of(ranks)
}
