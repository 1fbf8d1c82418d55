// Gather: the root takes from every other rank in ascending order.
ghost use Rattle.std.specs.Prelude.{◌<◌};
ghost use Rattle.programme.specs.Programme.{gather};

use crate::label;
use crate::member::Member;
use crate::part::Part;
use programme::{Action, Merge};

#[derive(Clone, Copy)]
pub(crate) struct Gather {
    pub(crate) member: Member,
    pub(crate) root: usize,
    ghost rooted: { root < member.ranks },
}

impl Part for Gather {
    ghost actions = { λ s. gather s.member.ranks s.root s.member.rank };

    fn action(self, index: usize) -> Option<Action> {
        if index >= self.length() {
            None
        } else if self.member.rank == self.root {
            Some(Action::Take {
                from: if index < self.root { index } else { index + 1 },
                label: label::COLLECT,
                merge: Merge::Keep,
            })
        } else {
            Some(Action::Send {
                to: self.root,
                label: label::COLLECT,
            })
        }
    }

    fn length(self) -> usize {
        if self.member.rank == self.root {
            self.member.ranks - 1
        } else {
            1
        }
    }
}
