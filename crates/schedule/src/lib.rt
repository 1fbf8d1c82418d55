// The schedules of the six collectives, one action at a time.
#![tactic(auto)]

ghost use Rattle.std.specs.Prelude.{◌≡◌, ◌<◌, ◌≤◌, length, None, MatchOption};
ghost use Rattle.programme.specs.Progress.{Flow};
ghost use Rattle.schedule.specs.Collective.{kind_of, root_in, root_of, Allowed, NamesOther, actions_of, rounds_of, messages_of};
ghost use Rattle.std.specs.List.{slice_get};

use allreduce::Allreduce;
use broadcast::Broadcast;
use gather::Gather;
use member::Member;
use part::Part;
use powers::ceil_log2;
use programme::{Action, Merge};
use ranks::MAX_RANKS;
use reduce::Reduce;
use scan::Scan;

mod allreduce;
mod broadcast;
mod exchange;
mod gather;
pub mod label;
mod member;
mod part;
mod powers;
mod reduce;
mod scan;

// A collective, with its root where it has one.
#[derive(Clone, Copy, PartialEq, Eq, Debug)]
pub enum Collective {
    Broadcast { root: usize },
    Gather { root: usize },
    Reduce { root: usize },
    Scan,
    Exscan,
    Allreduce,
}

// A collective among a number of ranks.
#[derive(Clone, Copy)]
pub struct Schedule {
    collective: Collective,
    ranks: usize,
    ghost allowed: { Allowed collective ranks },
}

impl Collective {
    // The root, if the collective has one.
    pub fn root(self) -> Option<usize>
        ensures { result ≡ root_in self }
    {
        match self {
            Collective::Broadcast { root }
            | Collective::Gather { root }
            | Collective::Reduce { root } => Some(root),
            Collective::Scan | Collective::Exscan | Collective::Allreduce => None,
        }
    }

    // The root, and 0 if the collective has none.
    pub fn root_or_zero(self) -> usize
        ensures { result ≡ root_of self }
    {
        self.root().unwrap_or(0)
    }
}

impl Schedule {
    // None if the root is not below the number of ranks, or there are no ranks or too many.
    pub fn new(collective: Collective, ranks: usize) -> Option<Schedule>
        ensures flows { MatchOption result Unit (λ s. Flow (kind_of collective) ranks (root_of collective)) }
        ensures is { MatchOption result (Allowed collective ranks → ⊥) (λ s. (s.collective ≡ collective) × (s.ranks ≡ ranks)) }
    {
        if collective.root_or_zero() < ranks && ranks <= MAX_RANKS {
            Some(Schedule { collective, ranks })
        } else {
            None
        }
    }

    pub fn collective(&self) -> Collective
        ensures { result ≡ self.now.collective }
    {
        self.collective
    }

    pub fn ranks(&self) -> usize
        ensures { result ≡ self.now.ranks }
    {
        self.ranks
    }

    // One of the ranks.
    fn member(&self, rank: usize) -> Option<Member>
        ensures { MatchOption result (self.now.ranks ≤ rank) (λ m. (m.ranks ≡ self.now.ranks) × (m.rank ≡ rank)) }
    {
        if rank < self.ranks {
            Some(Member {
                ranks: self.ranks,
                rank,
            })
        } else {
            None
        }
    }

    // The rank's action at that index, counted from 0; None past its last one.
    #[tactic(auto, using(crate::proofs::Spreads::numbered), unfolding(programme::specs::Programme::scan, programme::specs::Programme::exscan))]
    pub fn action(&self, rank: usize, index: usize) -> Option<Action>
        ensures here { rank < self.now.ranks → result ≡ slice_get (actions_of self.now.collective self.now.ranks rank) index }
        ensures past { self.now.ranks ≤ rank → result ≡ None }
        ensures other { NamesOther self.now.ranks rank result }
    {
        let member = self.member(rank)?;
        match self.collective {
            Collective::Broadcast { root } => Broadcast::new(root, member).action(index),
            Collective::Gather { root } => Gather { member, root }.action(index),
            Collective::Reduce { root } => Reduce { member, root }.action(index),
            Collective::Scan => Scan::new(Merge::Before, member).action(index),
            Collective::Exscan => Scan::new(Merge::Prefix, member).action(index),
            Collective::Allreduce => Allreduce::new(member).action(index),
        }
    }

    // How many actions the rank has.
    #[tactic(auto, using(crate::proofs::Spreads::numbered), unfolding(programme::specs::Programme::scan, programme::specs::Programme::exscan))]
    pub fn length(&self, rank: usize) -> usize
        ensures here { rank < self.now.ranks → result ≡ length (actions_of self.now.collective self.now.ranks rank) }
        ensures past { self.now.ranks ≤ rank → result ≡ 0 }
    {
        let Some(member) = self.member(rank) else {
            return 0;
        };
        match self.collective {
            Collective::Broadcast { root } => Broadcast::new(root, member).length(),
            Collective::Gather { root } => Gather { member, root }.length(),
            Collective::Reduce { root } => Reduce { member, root }.length(),
            Collective::Scan => Scan::new(Merge::Before, member).length(),
            Collective::Exscan => Scan::new(Merge::Prefix, member).length(),
            Collective::Allreduce => Allreduce::new(member).length(),
        }
    }

    // The greatest round in which a rank takes.
    pub fn rounds(&self) -> usize
        ensures { result ≡ rounds_of self.now.collective self.now.ranks }
    {
        match self.collective {
            Collective::Broadcast { .. } => ceil_log2(self.ranks),
            Collective::Gather { .. } => self.ranks - 1,
            Collective::Reduce { root } => reduce::rounds(self.ranks, root),
            Collective::Scan | Collective::Exscan => ceil_log2(self.ranks),
            Collective::Allreduce => allreduce::rounds(self.ranks),
        }
    }

    // How many messages all ranks send.
    pub fn messages(&self) -> usize
        ensures { result ≡ messages_of self.now.collective self.now.ranks }
    {
        match self.collective {
            Collective::Broadcast { .. } | Collective::Gather { .. } => self.ranks - 1,
            Collective::Reduce { root } => reduce::messages(self.ranks, root),
            Collective::Scan | Collective::Exscan => scan::messages(self.ranks),
            Collective::Allreduce => allreduce::messages(self.ranks),
        }
    }
}
