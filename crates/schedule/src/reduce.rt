// Reduce: a tree towards rank 0, and a last message to another root. A rank takes at each step below its lowest bit, and
// sends at the step of that bit; rank 0 takes at every step.
ghost use Rattle.std.specs.Prelude.{◌≡◌, ◌+◌, ◌-◌, ◌<◌, ◌≤◌, length, if◌then◌else◌, ◌==◌};
ghost use Rattle.programme.specs.Levels.{levels};
ghost use Rattle.programme.specs.Programme.{reduce};
ghost use Rattle.programme.specs.Formula.{takes};
ghost use Rattle.schedule.specs.Part.{tree, delivered, one_of};
ghost use Rattle.std.specs.List.{slice_get};

use crate::label;
use crate::member::Member;
use crate::part::Part;
use crate::powers::{ceil_log2, lowest_bit};
use programme::{Action, Merge};
use std::cmp::Ordering;

#[derive(Clone, Copy)]
pub(crate) struct Reduce {
    pub(crate) member: Member,
    pub(crate) root: usize,
}

impl Reduce {
    // How many values the rank takes in the tree.
    fn takes(self) -> usize
        ensures is { result ≡ takes (tree self.member.ranks self.member.rank) }
        ensures above { result ≤ levels (self.member.ranks - self.member.rank) }
        ensures within { result ≤ 64 }
    {
        self.member.steps_up().min(lowest_bit(self.member.rank))
    }

    fn tree_length(self) -> usize
        ensures is { result ≡ length (tree self.member.ranks self.member.rank) }
        ensures within { result ≤ 65 }
    {
        let takes = self.takes();
        if self.member.rank == 0 {
            takes
        } else {
            takes + 1
        }
    }

    fn tree_action(self, index: usize) -> Option<Action>
        ensures { result ≡ slice_get (tree self.member.ranks self.member.rank) index }
    {
        let takes = self.takes();
        if index < takes {
            Some(Action::Take {
                from: self.member.above(index),
                label: index as u32,
                merge: Merge::After,
            })
        } else if index == takes && self.member.rank > 0 {
            let k = lowest_bit(self.member.rank);
            Some(Action::Send {
                to: self.member.below(k),
                label: k as u32,
            })
        } else {
            None
        }
    }

    // What brings the result from rank 0 to another root.
    fn delivery(self) -> Option<Action>
        ensures { delivered self.root self.member.rank ≡ one_of result }
    {
        if self.root == 0 {
            None
        } else if self.member.rank == 0 {
            Some(Action::Send {
                to: self.root,
                label: label::DELIVER,
            })
        } else if self.member.rank == self.root {
            Some(Action::Take {
                from: 0,
                label: label::DELIVER,
                merge: Merge::Replace,
            })
        } else {
            None
        }
    }
}

impl Part for Reduce {
    ghost actions = { λ s. reduce s.member.ranks s.root s.member.rank };

    fn action(self, index: usize) -> Option<Action> {
        let end = self.tree_length();
        match index.cmp(&end) {
            Ordering::Less => self.tree_action(index),
            Ordering::Equal => self.delivery(),
            Ordering::Greater => None,
        }
    }

    fn length(self) -> usize {
        let end = self.tree_length();
        match self.delivery() {
            Some(_) => end + 1,
            None => end,
        }
    }
}

pub(crate) fn rounds(ranks: usize, root: usize) -> usize
    ensures { result ≡ (if root == 0 then levels ranks else levels ranks + 1) }
{
    let steps = ceil_log2(ranks);
    if root == 0 { steps } else { steps + 1 }
}

pub(crate) fn messages(ranks: usize, root: usize) -> usize
    requires { 0 < ranks }
    ensures { result ≡ (if root == 0 then ranks - 1 else ranks) }
{
    if root == 0 { ranks - 1 } else { ranks }
}
