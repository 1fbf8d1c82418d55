// Scan and exscan: at step k a rank sends 2^k ranks up and takes from 2^k ranks down, where there are such ranks.
ghost use Rattle.std.specs.Prelude.{◌≡◌, ◌+◌, ◌-◌, ◌*◌, ◌^◌, ◌<◌, ◌≤◌};
ghost use Rattle.programme.specs.Levels.{levels};
ghost use Rattle.programme.specs.Programme.{steps, scan_step};
ghost use Rattle.ranks.specs.Ranks.{most_ranks};
ghost use Rattle.schedule.specs.Part.{scan_send, scan_take};

use crate::member::Member;
use crate::part::Part;
use crate::powers::{ceil_log2, power};
use programme::{Action, Merge};

#[derive(Clone, Copy)]
pub(crate) struct Scan {
    member: Member,
    merge: Merge,
}

impl Scan {
    // What is taken is joined before, by one of two merges.
    pub(crate) fn new(merge: Merge, member: Member) -> Scan
        ensures merge { result.merge ≡ merge }
        ensures member { result.member ≡ member }
    {
        Scan { member, merge }
    }

    // The send of step k.
    fn send(self, k: usize) -> Option<Action>
        ensures { result ≡ scan_send self.member.ranks self.member.rank k }
    {
        if k < self.member.steps_up() {
            Some(Action::Send {
                to: self.member.above(k),
                label: k as u32,
            })
        } else {
            None
        }
    }

    // The take of step k.
    fn take(self, k: usize) -> Option<Action>
        ensures { result ≡ scan_take self.merge self.member.rank k }
    {
        if k < self.member.steps_down() {
            Some(Action::Take {
                from: self.member.below(k),
                label: k as u32,
                merge: self.merge,
            })
        } else {
            None
        }
    }
}

impl Part for Scan {
    ghost actions = { λ s. steps (scan_step s.merge s.member.ranks s.member.rank) (levels s.member.ranks) };

    // At first each step has both, and then each has one.
    fn action(self, index: usize) -> Option<Action> {
        let both = self.member.steps_up().min(self.member.steps_down());
        if index >= 2 * both {
            self.send(index - both).or(self.take(index - both))
        } else if index % 2 == 0 {
            self.send(index / 2)
        } else {
            self.take(index / 2)
        }
    }

    fn length(self) -> usize {
        self.member.steps_up() + self.member.steps_down()
    }
}

pub(crate) fn messages(ranks: usize) -> usize
    requires { (0 < ranks) × (ranks ≤ most_ranks) }
    ensures { result ≡ levels ranks * ranks + 1 - 2 ^ levels ranks }
{
    let steps = ceil_log2(ranks);
    steps * ranks + 1 - power(steps)
}
