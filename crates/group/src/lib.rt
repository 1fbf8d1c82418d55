// Some ranks of any transport, with numbers of their own.
#![tactic(auto)]

ghost use Rattle.std.specs.Prelude.{◌≡◌, ℕ, ◌+◌, ◌-◌, ◌<◌, ◌≤◌, true, false, length, ◌≢◌, OnSome, IfSome, IfNone, OnOk, IfOk, OnErr, IfErr, if◌then◌else◌, ◌==◌, slice_index};
ghost use Rattle.arrayvec.specs.ArrayVec.{array_vec_len};
ghost use Rattle.ranks.specs.Ranks.{pair_ok};
ghost use Rattle.transport.specs.Network.{waiting as waiting_in_all, nobody};
ghost use Rattle.transport.specs.declared.Fault.TheVariants.{BadPair};
ghost use Rattle.group.specs.Members.{grouped, new_group, GoodList, Grouping, Listed};
ghost use Rattle.group.specs.Shape.{grouped_shaped};

use arrayvec::ArrayVec;
use ranks::{MAX_RANKS, Pair};
use transport::{Fault, Transport};

// The ranks listed, where there are some and they are different ranks below.
fn members_of(ranks: &[usize], below: usize) -> Option<ArrayVec<usize, MAX_RANKS>>
    ensures good { OnSome result (GoodList below ranks.now) }
    ensures listed { IfSome result (λ members. members.items ≡ ranks.now) }
    ensures bad { IfNone result (GoodList below ranks.now → ⊥) }
{
    if ranks.is_empty() || ranks.len() > MAX_RANKS {
        return None;
    }
    let mut members = ArrayVec::new();
    for rank in ranks {
        if *rank >= below || members.contains(rank) {
            return None;
        }
        members.push(*rank);
    }
    Some(members)
}

// The members of a new group: the ranks listed, or none where the list is not good or something waits.
fn new_members<T: Transport>(below: &T, ranks: &[usize]) -> ArrayVec<usize, MAX_RANKS>
    ensures all { GoodList (T.meaning below.now).ranks ranks.now → waiting_in_all (T.meaning below.now) ≡ 0 → result.items ≡ ranks.now }
    ensures some { 0 < array_vec_len result → Listed (T.meaning below.now) ranks.now result.items }
{
    if below.waiting() > 0 {
        return ArrayVec::new();
    }
    members_of(ranks, below.ranks()).unwrap_or_default()
}

// Rank i of the group is member i.
#[derive(Drop)]
pub struct Group<T: Transport> {
    below: T,
    members: ArrayVec<usize, MAX_RANKS>,
    ghost grouping: { Grouping (array_vec_len members) members.items (T.meaning below) },
}

impl<T: Transport> Group<T> {
    // The ranks listed, or none where the list is not good or something waits.
    pub fn new(below: T, ranks: &[usize]) -> Group<T>
        ensures held { result.below ≡ below }
        ensures good { GoodList (T.meaning below).ranks ranks.now → waiting_in_all (T.meaning below) ≡ 0 → grouped T.most (array_vec_len result.members) result.members.items (T.meaning result.below) ≡ new_group (length ranks.now) (T.meaning below) }
        ensures bad { (GoodList (T.meaning below).ranks ranks.now → ⊥) → grouped T.most (array_vec_len result.members) result.members.items (T.meaning result.below) ≡ nobody T.most }
        ensures busy { (waiting_in_all (T.meaning below) ≢ 0) → grouped T.most (array_vec_len result.members) result.members.items (T.meaning result.below) ≡ nobody T.most }
    {
        let members = new_members(&below, ranks);
        Group { below, members }
    }

    // Ends the layer: the transport below, as it stands.
    pub fn into_inner(self) -> T
        ensures below { result ≡ self.below }
    {
        let Group { below, members: _ } = self;
        below
    }

    // A number of the network below: 0 where the group has no ranks.
    fn seen(&self, number: usize) -> usize
        ensures { result ≡ (if array_vec_len self.now.members == 0 then 0 else number) }
    {
        if self.members.is_empty() { 0 } else { number }
    }

    // Two ranks of the group, as they are numbered below.
    fn pair_below(&self, pair: Pair) -> Result<Pair, Fault>
        ensures ok { IfOk result (λ there. (there.from ≡ slice_index self.now.members.items pair.from) × (there.to ≡ slice_index self.now.members.items pair.to)) }
        ensures good { OnOk result (pair_ok (array_vec_len self.now.members) pair.from pair.to ≡ true) }
        ensures bad { OnErr result (pair_ok (array_vec_len self.now.members) pair.from pair.to ≡ false) }
        ensures fault { IfErr result (λ fault. fault ≡ BadPair) }
    {
        if !pair.is_among(self.members.len()) {
            return Err(Fault::BadPair);
        }
        Ok(Pair {
            from: self.members[pair.from],
            to: self.members[pair.to],
        })
    }
}

impl<T: Transport> Transport for Group<T> {
    const MESSAGE_LIMIT: usize = T::MESSAGE_LIMIT;

    ghost most = { T.most };

    ghost meaning = { λ s. grouped T.most (array_vec_len s.members) s.members.items (T.meaning s.below) };

    fn limit(&self) -> usize {
        self.below.limit()
    }

    fn ranks(&self) -> usize {
        self.members.len()
    }

    fn depth(&self) -> usize {
        self.seen(self.below.depth())
    }

    fn room(&self) -> usize {
        self.seen(self.below.room())
    }

    fn waiting(&self) -> usize {
        self.seen(self.below.waiting())
    }

    fn waiting_between(&self, pair: Pair) -> Result<usize, Fault> {
        self.below.waiting_between(self.pair_below(pair)?)
    }

    fn send(&mut self, pair: Pair, tag: u32, words: &[u32]) -> Result<(), Fault> {
        let below = self.pair_below(pair)?;
        self.below.send(below, tag, words)
    }

    fn carry(&mut self, pair: Pair) -> Result<bool, Fault> {
        let below = self.pair_below(pair)?;
        self.below.carry(below)
    }

    fn take(&mut self, pair: Pair, tag: u32, buffer: &mut [u32]) -> Result<Option<usize>, Fault> {
        let below = self.pair_below(pair)?;
        self.below.take(below, tag, buffer)
    }

    ghost shaped = { λ s. grouped_shaped T.most (array_vec_len s.members) s.members.items (T.meaning s.below) (T.shaped s.below) s.grouping };
}
