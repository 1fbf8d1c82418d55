// One rank among so many, and the ranks a power of two away.
ghost use Rattle.std.specs.Prelude.{◌≡◌, ◌+◌, ◌-◌, ◌^◌, ◌<◌, ◌≤◌};
ghost use Rattle.programme.specs.Levels.{levels};
ghost use Rattle.ranks.specs.Ranks.{most_ranks};

use crate::powers::{ceil_log2, power};

#[derive(Clone, Copy)]
pub(crate) struct Member {
    pub(crate) ranks: usize,
    pub(crate) rank: usize,
    ghost within: { rank < ranks },
    ghost few: { ranks ≤ most_ranks },
}

impl Member {
    // How many k have a rank 2^k above.
    pub(crate) fn steps_up(self) -> usize
        ensures is { result ≡ levels (self.ranks - self.rank) }
        ensures within { result ≤ 64 }
    {
        ceil_log2(self.ranks - self.rank)
    }

    // How many k have a rank 2^k below.
    pub(crate) fn steps_down(self) -> usize
        ensures is { result ≡ levels (self.rank + 1) }
        ensures within { result ≤ 64 }
    {
        ceil_log2(self.rank + 1)
    }

    // The rank 2^k above.
    #[tactic(auto, using(crate::proofs::Places::few_levels, crate::proofs::Places::has_above))]
    pub(crate) fn above(self, k: usize) -> usize
        requires { k < levels (self.ranks - self.rank) }
        ensures is { result ≡ self.rank + 2 ^ k }
        ensures within { result < self.ranks }
    {
        self.rank + power(k)
    }

    // The rank 2^k below.
    #[tactic(auto, using(crate::proofs::Places::few_levels, crate::proofs::Places::has_below))]
    pub(crate) fn below(self, k: usize) -> usize
        requires { k < levels (self.rank + 1) }
        ensures is { result ≡ self.rank - 2 ^ k }
        ensures within { result < self.ranks }
    {
        self.rank - power(k)
    }
}
