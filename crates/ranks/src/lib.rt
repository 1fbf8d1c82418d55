// Ranks: how many there may be, and which two are a pair.
#![tactic(auto)]

ghost use Rattle.std.specs.Prelude.{◌≡◌};
ghost use Rattle.ranks.specs.Ranks.{pair_ok};

// The most ranks that a transport, a group or a schedule has.
pub const MAX_RANKS: usize = 64;

// Who sends and who takes.
#[derive(Clone, Copy, PartialEq, Eq, Debug)]
pub struct Pair {
    pub from: usize,
    pub to: usize,
}

impl Pair {
    // Whether these are two different ranks of so many.
    pub fn is_among(self, ranks: usize) -> bool
        ensures { result ≡ pair_ok ranks self.from self.to }
    {
        self.from < ranks && self.to < ranks && self.from != self.to
    }
}
