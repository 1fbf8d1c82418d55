// Exchange: as many numbers as the greatest power of two, in pairs. At step k a number sends to the one whose bit k differs,
// and takes from it.
ghost use Rattle.std.specs.Prelude.{◌≡◌, ◌*◌, ◌^◌, ◌<◌, ◌≤◌, if◌then◌else◌};
ghost use Rattle.programme.specs.Levels.{floor_log};
ghost use Rattle.programme.specs.Programme.{bit, exchange, flip, rank_of};
ghost use Rattle.programme.specs.declared.Merge.TheVariants.{Before, After};
ghost use Rattle.ranks.specs.Ranks.{most_ranks};

use crate::part::Part;
use crate::powers::{flipped, floor_log2, has_bit, surplus_of};
use programme::{Action, Merge};

// A number among those of so many ranks.
#[derive(Clone, Copy)]
pub(crate) struct Exchange {
    pub(crate) ranks: usize,
    pub(crate) number: usize,
    ghost some: { 0 < ranks },
    ghost few: { ranks ≤ most_ranks },
    ghost within: { number < 2 ^ floor_log ranks },
}

impl Exchange {
    // The rank that has a number: below the surplus it exchanges for the rank before it too.
    fn rank_of(self, number: usize) -> usize
        requires { number ≤ 2 * self.ranks }
        ensures { result ≡ rank_of self.ranks number }
    {
        let surplus = surplus_of(self.ranks);
        if number < surplus {
            2 * number + 1
        } else {
            number + surplus
        }
    }

    // The rank whose number differs in bit k.
    fn partner(self, k: usize) -> usize
        requires { k < floor_log self.ranks }
        ensures { result ≡ rank_of self.ranks (flip self.number k) }
    {
        self.rank_of(flipped(self.number, k))
    }

    // A number with bit k set takes from a lower one, whose value is joined before.
    fn side(self, k: usize) -> Merge
        requires { k < 64 }
        ensures { result ≡ (if bit self.number k then Before else After) }
    {
        if has_bit(self.number, k) {
            Merge::Before
        } else {
            Merge::After
        }
    }
}

impl Part for Exchange {
    ghost actions = { λ s. exchange s.ranks s.number };

    fn action(self, index: usize) -> Option<Action> {
        let k = index / 2;
        if k >= floor_log2(self.ranks) {
            None
        } else if index % 2 == 0 {
            Some(Action::Send {
                to: self.partner(k),
                label: k as u32,
            })
        } else {
            Some(Action::Take {
                from: self.partner(k),
                label: k as u32,
                merge: self.side(k),
            })
        }
    }

    fn length(self) -> usize {
        2 * floor_log2(self.ranks)
    }
}
