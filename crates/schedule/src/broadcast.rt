// Broadcast: a tree from the root. Ranks are numbered from the root, which has number 0; number u takes from the number
// without its highest bit, and sends to each number with one higher bit.
ghost use Rattle.std.specs.Prelude.{◌≡◌, ◌+◌, ◌-◌, ◌<◌, ◌≤◌};
ghost use Rattle.programme.specs.Levels.{levels};
ghost use Rattle.programme.specs.Programme.{steps, from_root, rank_at};
ghost use Rattle.schedule.specs.Part.{spread, spread_step, taken};
ghost use Rattle.std.specs.List.{slice_get};

use crate::member::Member;
use crate::part::Part;
use crate::powers::floor_log2;
use programme::{Action, Merge};

#[derive(Clone, Copy)]
pub(crate) struct Broadcast {
    root: usize,
    // The rank's number, among as many numbers as there are ranks.
    number: Member,
    ghost rooted: { root < number.ranks },
}

impl Broadcast {
    // The part of a member, by its number.
    pub(crate) fn new(root: usize, member: Member) -> Broadcast
        requires { root < member.ranks }
        ensures root { result.root ≡ root }
        ensures ranks { result.number.ranks ≡ member.ranks }
        ensures number { result.number.rank ≡ from_root member.ranks root member.rank }
    {
        let Member { ranks, rank } = member;
        let number = (rank + (ranks - root)) % ranks;
        Broadcast {
            root,
            number: Member {
                ranks,
                rank: number,
            },
        }
    }

    // The rank that has that number.
    fn rank_at(self, number: usize) -> usize
        requires { number < self.number.ranks }
        ensures { result ≡ rank_at self.number.ranks self.root number }
    {
        (number + self.root) % self.number.ranks
    }

    // The steps from the first with 2^k > number on, as long as there is a number 2^k above.
    fn sends(self) -> usize
        ensures is { result ≡ levels (self.number.ranks - self.number.rank) - levels (self.number.rank + 1) }
        ensures within { result ≤ 64 }
    {
        self.number
            .steps_up()
            .saturating_sub(self.number.steps_down())
    }

    // The send at that index, counted from the first send.
    fn send(self, index: usize) -> Option<Action>
        ensures { result ≡ slice_get (steps (spread_step self.number.ranks self.root self.number.rank) (levels self.number.ranks)) index }
    {
        if index < self.sends() {
            let k = self.number.steps_down() + index;
            Some(Action::Send {
                to: self.rank_at(self.number.above(k)),
                label: k as u32,
            })
        } else {
            None
        }
    }

    // What comes first at every rank but the root.
    fn take(self) -> Action
        requires { 0 < self.number.rank }
        ensures { result ≡ taken self.number.ranks self.root self.number.rank }
    {
        let k = floor_log2(self.number.rank);
        Action::Take {
            from: self.rank_at(self.number.below(k)),
            label: k as u32,
            merge: Merge::Replace,
        }
    }
}

impl Part for Broadcast {
    ghost actions = { λ s. spread s.number.ranks s.root s.number.rank };

    fn action(self, index: usize) -> Option<Action> {
        if self.number.rank == 0 {
            self.send(index)
        } else if index == 0 {
            Some(self.take())
        } else {
            self.send(index - 1)
        }
    }

    fn length(self) -> usize {
        if self.number.rank == 0 {
            self.sends()
        } else {
            self.sends() + 1
        }
    }
}
