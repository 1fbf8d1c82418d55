// A matrix of mailboxes over lent words: a row of slots for each ordered pair of ranks.
#![tactic(auto)]

ghost use Rattle.std.specs.Prelude.{◌≡◌, ℕ, ◌+◌, ◌-◌, ◌*◌, ◌<◌, ◌≤◌, true, false, ◌++◌, length, take, drop, set, map, position};
ghost use Rattle.std.specs.List.{HoldsAt};
ghost use Rattle.ranks.specs.Ranks.{most_ranks, pair_ok};
ghost use Rattle.transport.specs.Network.{message};
ghost use Rattle.mailbox.specs.Matrix.{mailbox_network, SoundBox, SoundBox-prop, most_depth, usable, new_network, new_words};
ghost use Rattle.mailbox.specs.Shape.{mailbox_shaped};
ghost use Rattle.mailbox.specs.Slots.{slot_of, slots_of, message_in, message_of, words_of, count_of, is_free, is_under, is_tagged, arrived, taken_out, box, base};

use ranks::{MAX_RANKS, Pair};
use std::ops::Range;
use transport::{Fault, Transport};

// How many words a slot has.
const SLOT_WORDS: usize = 4;

// The most messages that may wait between two ranks.
const MAX_DEPTH: usize = 64;

// A message: its tag, how many words it has, and those words.
#[derive(Clone, Copy)]
struct Letter {
    tag: u32,
    count: usize,
    first: u32,
    second: u32,
}

impl Letter {
    fn new(tag: u32, words: &[u32]) -> Letter
        requires { length words.now ≤ 2 }
        ensures message { message_in result ≡ message tag words.now }
        ensures count { result.count ≤ 2 }
    {
        Letter {
            tag,
            count: words.len(),
            first: words.first().copied().unwrap_or(0),
            second: words.get(1).copied().unwrap_or(0),
        }
    }
}

// What stands in a slot.
#[derive(Clone, Copy)]
enum Slot {
    Free,
    UnderWay(Letter),
    Arrived(Letter),
}

impl Slot {
    // The slot that four words stand for: a mark, the message's tag and its words. The mark is 0 where the slot is free, 1 more
    // than the message's length where it is under way, and 4 more where it has arrived; a matrix has no mark above 6.
    fn read(words: &[u32]) -> Slot
        ensures { result ≡ slot_of words.now }
    {
        match words {
            [mark @ 1..=3, tag, first, second] => Slot::UnderWay(Letter {
                tag: *tag,
                count: (*mark - 1) as usize,
                first: *first,
                second: *second,
            }),
            [mark @ 4.., tag, first, second] => Slot::Arrived(Letter {
                tag: *tag,
                count: (*mark - 4) as usize,
                first: *first,
                second: *second,
            }),
            _ => Slot::Free,
        }
    }

    // The four words that stand for a slot.
    fn words(self) -> [u32; SLOT_WORDS]
        requires { count_of self ≤ 2 }
        ensures { slot_of result ≡ self }
    {
        match self {
            Slot::Free => [0; SLOT_WORDS],
            Slot::UnderWay(letter) => [
                letter.count as u32 + 1,
                letter.tag,
                letter.first,
                letter.second,
            ],
            Slot::Arrived(letter) => [
                letter.count as u32 + 4,
                letter.tag,
                letter.first,
                letter.second,
            ],
        }
    }

    fn is_free(self) -> bool
        ensures { result ≡ is_free self }
    {
        matches!(self, Slot::Free)
    }

    fn is_under_way(self) -> bool
        ensures { result ≡ is_under self }
    {
        matches!(self, Slot::UnderWay(_))
    }

    fn has_arrived(self, tag: u32) -> bool
        ensures { result ≡ is_tagged tag self }
    {
        matches!(self, Slot::Arrived(letter) if letter.tag == tag)
    }

    // The slot with its message arrived.
    fn arrived(self) -> Slot
        ensures { result ≡ arrived self }
    {
        match self {
            Slot::Free => Slot::Free,
            Slot::UnderWay(letter) | Slot::Arrived(letter) => Slot::Arrived(letter),
        }
    }

    // The words of its message over the front of a buffer, and how many they are.
    fn deliver(self, buffer: &mut [u32]) -> usize
        requires { (count_of self ≤ 2) × (2 ≤ length buffer.old) }
        ensures count { result ≡ length (words_of self) }
        ensures words { buffer.new ≡ words_of self ++ drop (length (words_of self)) buffer.old }
    {
        match self {
            Slot::Free => 0,
            Slot::UnderWay(letter) | Slot::Arrived(letter) => {
                let words = [letter.first, letter.second];
                buffer[..letter.count].copy_from_slice(&words[..letter.count]);
                letter.count
            }
        }
    }
}

// The slot at a place of a row.
fn read_slot(row: &[u32], place: usize) -> Slot
    requires { 4 * place + 4 ≤ length row.now }
    ensures { HoldsAt (λ slot. slot ≡ result) (slots_of row.now) place }
{
    Slot::read(&row[SLOT_WORDS * place..SLOT_WORDS * (place + 1)])
}

// Writes a slot at a place of a row.
fn write_slot(row: &mut [u32], place: usize, slot: Slot)
    requires { (4 * place + 4 ≤ length row.old) × (count_of slot ≤ 2) }
    ensures { slots_of row.new ≡ set (slots_of row.old) place slot }
{
    row[SLOT_WORDS * place..SLOT_WORDS * (place + 1)].copy_from_slice(&slot.words());
}

// The words behind a slot move down over it.
#[tactic(auto, using(crate::proofs::Words::gap_closed))]
fn close_gap(row: &mut [u32], place: usize)
    requires { 4 * place + 4 ≤ length row.old }
    ensures { take (length row.old - 4) row.new ≡ take (4 * place) row.old ++ drop (4 * (place + 1)) row.old }
{
    row.copy_within(SLOT_WORDS * (place + 1).., SLOT_WORDS * place);
}

// Takes one of so many messages out of its row: the slots behind it move down by one place, and the last is free.
// Answers how many messages are left.
fn remove(row: &mut [u32], place: usize, used: usize) -> usize
    requires place { (4 * place + 4 ≤ length row.old) × (4 * length (slots_of row.old) ≡ length row.old) }
    requires used { 1 ≤ used }
    ensures row { slots_of row.new ≡ taken_out (slots_of row.old) place }
    ensures left { result ≡ used - 1 }
{
    close_gap(row, place);
    let last = row.len() - SLOT_WORDS;
    row[last..].fill(0);
    used - 1
}

// The place of the first free slot of a row.
fn first_free(row: &[[u32; SLOT_WORDS]]) -> Option<usize>
    ensures { result ≡ position (λ words. is_free (slot_of words)) row.now }
{
    row.iter().position(|words| Slot::read(words).is_free())
}

// The place of the oldest message under way of a row.
fn first_under_way(row: &[[u32; SLOT_WORDS]]) -> Option<usize>
    ensures { result ≡ position (λ words. is_under (slot_of words)) row.now }
{
    row.iter()
        .position(|words| Slot::read(words).is_under_way())
}

// The place of the oldest message of a row that has arrived with a tag.
fn first_arrived(row: &[[u32; SLOT_WORDS]], tag: u32) -> Option<usize>
    ensures { result ≡ position (λ words. is_tagged tag (slot_of words)) row.now }
{
    row.iter()
        .position(|words| Slot::read(words).has_arrived(tag))
}

// How many slots a matrix has.
fn slot_count(ranks: usize, depth: usize) -> usize
    requires { (ranks ≤ most_ranks) × (depth ≤ most_depth) }
    ensures { result ≡ ranks * ranks * depth }
{
    ranks * ranks * depth
}

// Whether a matrix may be made of that many lent words.
fn is_usable(ranks: usize, depth: usize, lent: usize) -> bool
    ensures { result ≡ usable ranks depth lent }
{
    (1..=MAX_RANKS).contains(&ranks)
        && (1..=MAX_DEPTH).contains(&depth)
        && SLOT_WORDS * slot_count(ranks, depth) <= lent
}

// A matrix holds the lent words that it uses; `used` messages wait in all.
// A matrix that may not be used has no ranks and no depth, and never writes a word.
#[derive(Drop)]
pub struct Mailbox<'a> {
    words: &'a mut [u32],
    ranks: usize,
    depth: usize,
    used: usize,
    ghost sound: { SoundBox ranks depth used words.now } by { SoundBox-prop ranks depth used words.now },
}

impl<'a> Mailbox<'a> {
    // A matrix of so many ranks and that depth over the first of the lent words, which become zeros.
    pub fn new(ranks: usize, depth: usize, words: &'a mut [u32]) -> Mailbox<'a>
        ensures meaning { mailbox_network result.ranks result.depth result.words.now ≡ new_network ranks depth (length words.old) }
        ensures written { result.words.now ≡ new_words ranks depth words.old }
    {
        if !is_usable(ranks, depth, words.len()) {
            return Mailbox {
                words,
                ranks: 0,
                depth: 0,
                used: 0,
            };
        }
        let needed = SLOT_WORDS * slot_count(ranks, depth);
        let words = &mut words[0..needed];
        words.fill(0);
        Mailbox {
            words,
            ranks,
            depth,
            used: 0,
        }
    }

    // The place of a pair's first slot among all.
    fn first_slot(&self, pair: Pair) -> usize
        requires { pair_ok self.now.ranks pair.from pair.to ≡ true }
        ensures { result ≡ base self.now.ranks self.now.depth pair.from pair.to }
    {
        (pair.from * self.ranks + pair.to) * self.depth
    }

    // Which of the words are a pair's row.
    fn bounds(&self, pair: Pair) -> Range<usize>
        requires { pair_ok self.now.ranks pair.from pair.to ≡ true }
        ensures start { result.start ≡ 4 * base self.now.ranks self.now.depth pair.from pair.to }
        ensures end { result.end ≡ 4 * (base self.now.ranks self.now.depth pair.from pair.to + self.now.depth) }
        ensures inside { result.end ≤ length self.now.words.now }
    {
        let first = self.first_slot(pair);
        SLOT_WORDS * first..SLOT_WORDS * (first + self.depth)
    }

    // A pair's row of slots.
    fn row(&self, pair: Pair) -> &[[u32; SLOT_WORDS]]
        requires { pair_ok self.now.ranks pair.from pair.to ≡ true }
        ensures { map slot_of result.now ≡ box self.now.ranks self.now.depth self.now.words.now pair.from pair.to }
    {
        let (slots, _) = self.words[self.bounds(pair)].as_chunks();
        slots
    }
}

impl Transport for Mailbox<'_> {
    const MESSAGE_LIMIT: usize = 2;

    ghost most = { 2 };

    ghost meaning = { λ m. mailbox_network m.ranks m.depth m.words.now };

    ghost shaped = { λ m. mailbox_shaped m.ranks m.depth m.used m.words.now m.sound };

    fn limit(&self) -> usize {
        Self::MESSAGE_LIMIT
    }

    fn ranks(&self) -> usize {
        self.ranks
    }

    fn depth(&self) -> usize {
        self.depth
    }

    fn room(&self) -> usize {
        slot_count(self.ranks, self.depth)
    }

    fn waiting(&self) -> usize {
        self.used // in all boxes
    }

    fn waiting_between(&self, pair: Pair) -> Result<usize, Fault> {
        if !pair.is_among(self.ranks) {
            return Err(Fault::BadPair);
        }
        Ok(first_free(self.row(pair)).unwrap_or(self.depth))
    }

    fn send(&mut self, pair: Pair, tag: u32, words: &[u32]) -> Result<(), Fault> {
        if !pair.is_among(self.ranks) {
            return Err(Fault::BadPair);
        }
        if words.len() > Self::MESSAGE_LIMIT {
            return Err(Fault::TooLong);
        }
        let Some(place) = first_free(self.row(pair)) else {
            return Err(Fault::PairFull);
        };
        if self.used >= self.room() {
            return Err(Fault::NoRoom);
        }
        let row = self.bounds(pair);
        let letter = Letter::new(tag, words);
        write_slot(&mut self.words[row], place, Slot::UnderWay(letter));
        self.used += 1;
        Ok(())
    }

    fn carry(&mut self, pair: Pair) -> Result<bool, Fault> {
        if !pair.is_among(self.ranks) {
            return Err(Fault::BadPair);
        }
        if self.used == 0 {
            return Ok(false);
        }
        let Some(place) = first_under_way(self.row(pair)) else {
            return Ok(false);
        };
        let bounds = self.bounds(pair);
        let row = &mut self.words[bounds];
        let slot = read_slot(row, place);
        write_slot(row, place, slot.arrived());
        Ok(true)
    }

    fn take(&mut self, pair: Pair, tag: u32, buffer: &mut [u32]) -> Result<Option<usize>, Fault> {
        if !pair.is_among(self.ranks) {
            return Err(Fault::BadPair);
        }
        if buffer.len() < Self::MESSAGE_LIMIT {
            return Err(Fault::ShortBuffer);
        }
        if self.used == 0 {
            return Ok(None);
        }
        let Some(place) = first_arrived(self.row(pair), tag) else {
            return Ok(None);
        };
        let bounds = self.bounds(pair);
        let row = &mut self.words[bounds];
        let length = read_slot(row, place).deliver(buffer);
        self.used = remove(row, place, self.used);
        Ok(Some(length))
    }
}
