// A transport of messages of up to seven words over any other transport.
#![tactic(auto)]

ghost use Rattle.std.specs.Prelude.{◌≡◌, ℕ, ◌+◌, ◌-◌, ◌*◌, ◌/◌, ◌<◌, ◌≤◌, min, true, ◌++◌, length, take, drop, if◌then◌else◌, ◌==◌, slice_index};
ghost use Rattle.std.specs.List.{flat_map};
ghost use Rattle.ranks.specs.Ranks.{pair_ok};
ghost use Rattle.transport.specs.Network.{between, waiting as waiting_in_all, sending, done, carrying, some_moved, oldest, without, with_lists, put};
ghost use Rattle.transport.specs.Many.{sent_all, carried_all};
ghost use Rattle.segmented.specs.Segments.{pieces, block as block_words, cut, segments, decode, segmented as segmented_network, new_segmented, usable, Coded, BlockOf, Whole};
ghost use Rattle.segmented.specs.Shape.{segmented_shaped};
ghost use Rattle.std.proofs.Props.{props};

use ranks::Pair;
use transport::{Fault, Transport};

// A message has up to seven words. They and their number fill a block.
const WORDS: usize = 7;

const BLOCK: usize = WORDS + 1;

// Each take of a segment asks for room for the longest message below, which is no longer than a block.
const ROOM: usize = 2 * BLOCK;

// A block's length, its words and zeros.
fn block_of(words: &[u32]) -> [u32; BLOCK]
    requires { length words.now ≤ 7 }
    ensures { result ≡ block_words words.now }
{
    let mut block = [0; BLOCK];
    block[0] = words.len() as u32;
    block[1..=words.len()].copy_from_slice(words);
    block
}

// How many segments a message has over a transport of that limit.
#[tactic(auto, using(crate::proofs::Arith::pieces_up))]
fn pieces_over(limit: usize) -> usize
    requires { 0 < limit }
    ensures value { result ≡ pieces limit }
    ensures some { 0 < result }
{
    BLOCK.div_ceil(limit)
}

// Sends a block as segments, for which there is room.
#[tactic(auto, using(std::proofs::lemmas::Grind::common_steps, transport::proofs::Many::sent_none))]
fn send_segments<T: Transport>(
    below: &mut T,
    pair: Pair,
    tag: u32,
    block: &[u32],
) -> Result<(), Fault>
    requires pair { pair_ok (T.meaning below.old).ranks pair.from pair.to ≡ true }
    requires some { 0 < T.most }
    requires full { length block.now ≡ 8 }
    requires depth { between (T.meaning below.old) pair.from pair.to + pieces T.most ≤ (T.meaning below.old).depth }
    requires room { waiting_in_all (T.meaning below.old) + pieces T.most ≤ (T.meaning below.old).room }
    ensures answer { sending result ≡ done }
    ensures after { T.meaning below.new ≡ sent_all (T.meaning below.old) pair.from pair.to (cut (pieces T.most) T.most tag block.now) }
{
    for segment in block.chunks(below.limit()) {
        below.send(pair, tag, segment)?;
    }
    Ok(())
}

// Carries all segments of a message, up to the first carry that moves nothing.
fn carry_segments<T: Transport>(below: &mut T, pair: Pair) -> Result<bool, Fault>
    requires pair { pair_ok (T.meaning below.old).ranks pair.from pair.to ≡ true }
    requires some { 0 < T.most }
    ensures answer { carrying result ≡ some_moved (drop (pieces T.most - 1) ((T.meaning below.old).under pair.from pair.to)) }
    ensures after { T.meaning below.new ≡ carried_all (T.meaning below.old) pair.from pair.to (pieces T.most) }
{
    for _ in 0..pieces_over(below.limit()) {
        if !below.carry(pair)? {
            return Ok(false);
        }
    }
    Ok(true)
}

// Takes the segments of the oldest message with a tag: its block, with more words behind it.
fn take_segments<T: Transport>(
    below: &mut T,
    pair: Pair,
    tag: u32,
) -> Result<Option<[u32; ROOM]>, Fault>
    requires pair { pair_ok (T.meaning below.old).ranks pair.from pair.to ≡ true }
    requires some { 0 < T.most }
    requires coded { Coded T.most ((T.meaning below.old).arrived pair.from pair.to) }
    ensures found { BlockOf (oldest tag (decode (pieces T.most) ((T.meaning below.old).arrived pair.from pair.to))) result }
    ensures after { T.meaning below.new ≡ with_lists (T.meaning below.old) (T.meaning below.old).under (put (T.meaning below.old).arrived pair.from pair.to (flat_map (segments T.most) (without tag (decode (pieces T.most) ((T.meaning below.old).arrived pair.from pair.to))))) }
{
    let mut block = [0; ROOM];
    for start in (0..BLOCK).step_by(below.limit()) {
        if below.take(pair, tag, &mut block[start..])?.is_none() {
            return Ok(None);
        }
    }
    Ok(Some(block))
}

// The words of a block over the front of a buffer, and how many they are.
fn unpack(block: &[u32], buffer: &mut [u32]) -> usize
    requires block { 8 ≤ length block.now }
    requires few { slice_index block.now 0 ≤ 7 }
    requires buffer { 7 ≤ length buffer.old }
    ensures count { result ≡ slice_index block.now 0 }
    ensures words { buffer.new ≡ take (slice_index block.now 0) (drop 1 block.now) ++ drop (slice_index block.now 0) buffer.old }
{
    let length = block[0] as usize;
    buffer[..length].copy_from_slice(&block[1..=length]);
    length
}

// The ranks of a layer over a transport: none where it may not be used.
fn usable_ranks<T: Transport>(below: &T) -> usize
    ensures { result ≡ (if usable T.most (T.meaning below.now) then (T.meaning below.now).ranks else 0) }
{
    let limit = below.limit();
    if limit == 0 || below.waiting() > 0 {
        return 0;
    }
    let pieces = pieces_over(limit);
    if below.depth() / pieces == 0 || below.room() / pieces == 0 {
        return 0;
    }
    below.ranks()
}

// The ranks are those below, or 0 where the layer may not be used.
#[derive(Drop)]
pub struct Segmented<T: Transport> {
    below: T,
    ranks: usize,
    ghost whole: { Whole T.most ranks (T.meaning below) } by { Prim.hlevel props },
}

impl<T: Transport> Segmented<T> {
    pub fn new(below: T) -> Segmented<T>
        ensures held { result.below ≡ below }
        ensures meaning { segmented_network T.most result.ranks (T.meaning result.below) ≡ new_segmented T.most (T.meaning below) }
    {
        let ranks = usable_ranks(&below);
        Segmented { below, ranks }
    }

    // Ends the layer: the transport below, as it stands.
    pub fn into_inner(self) -> T
        ensures below { result ≡ self.below }
    {
        let Segmented { below, ranks: _ } = self;
        below
    }

    // How many messages so many segments are: none where the layer has no ranks.
    fn messages(&self, segments: usize) -> usize
        ensures { result ≡ (if self.now.ranks == 0 then 0 else segments / pieces T.most) }
    {
        if self.ranks == 0 {
            return 0;
        }
        segments / pieces_over(self.below.limit())
    }
}

impl<T: Transport> Transport for Segmented<T> {
    const MESSAGE_LIMIT: usize = WORDS;

    ghost most = { 7 };

    ghost meaning = { λ s. segmented_network T.most s.ranks (T.meaning s.below) };

    fn limit(&self) -> usize {
        WORDS
    }

    fn ranks(&self) -> usize {
        self.ranks
    }

    fn depth(&self) -> usize {
        self.messages(self.below.depth())
    }

    fn room(&self) -> usize {
        self.messages(self.below.room())
    }

    #[tactic(auto, using(crate::proofs::Layer::waiting_above))]
    fn waiting(&self) -> usize {
        self.messages(self.below.waiting())
    }

    fn waiting_between(&self, pair: Pair) -> Result<usize, Fault> {
        if !pair.is_among(self.ranks) {
            return Err(Fault::BadPair);
        }
        let segments = self.below.waiting_between(pair)?;
        Ok(self.messages(segments))
    }

    fn send(&mut self, pair: Pair, tag: u32, words: &[u32]) -> Result<(), Fault> {
        if !pair.is_among(self.ranks) {
            return Err(Fault::BadPair);
        }
        if words.len() > WORDS {
            return Err(Fault::TooLong);
        }
        let between = self.waiting_between(pair)?;
        if between >= self.depth() {
            return Err(Fault::PairFull);
        }
        if self.waiting() >= self.room() {
            return Err(Fault::NoRoom);
        }
        let block = block_of(words);
        send_segments(&mut self.below, pair, tag, &block)
    }

    fn carry(&mut self, pair: Pair) -> Result<bool, Fault> {
        if !pair.is_among(self.ranks) {
            return Err(Fault::BadPair);
        }
        carry_segments(&mut self.below, pair)
    }

    fn take(&mut self, pair: Pair, tag: u32, buffer: &mut [u32]) -> Result<Option<usize>, Fault> {
        if !pair.is_among(self.ranks) {
            return Err(Fault::BadPair);
        }
        if buffer.len() < WORDS {
            return Err(Fault::ShortBuffer);
        }
        match take_segments(&mut self.below, pair, tag)? {
            Some(block) => Ok(Some(unpack(&block, buffer))),
            None => Ok(None),
        }
    }

    ghost shaped = { λ s. segmented_shaped T.most s.ranks (T.meaning s.below) (T.shaped s.below) s.whole };
}
