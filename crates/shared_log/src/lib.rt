// A transport over lent records: the messages of all pairs in one row, in the order in which they were sent.
#![tactic(auto)]

ghost use Rattle.std.specs.Prelude.{◌≡◌, ◌-◌, ◌<◌, ◌≤◌, length, take, Some, filter};
ghost use Rattle.std.specs.List.{position, remove};
ghost use Rattle.transport.specs.Network.{written};
ghost use Rattle.shared_log.specs.Records.{of_pair, is_under, is_tagged, message_of, full_fault, most_words, usable, SoundLog, new_network, new_records};
ghost use Rattle.shared_log.specs.Once.{SoundLog-prop};

use ranks::{MAX_RANKS, Pair};
use transport::{Fault, Transport};

// The most records that a log uses.
const MAX_RECORDS: usize = 1536;

// The most words of a message.
pub const MAX_WORDS: usize = 4;

// A message with its ranks and the mark that it has arrived. C can lend a row of them.
#[repr(C)]
#[derive(Clone, Copy, PartialEq, Eq, Debug)]
pub struct Record {
    pub from: usize,
    pub to: usize,
    pub tag: u32,
    pub length: usize,
    pub words: [u32; MAX_WORDS],
    pub arrived: bool,
}

impl Record {
    fn is_of_pair(&self, pair: Pair) -> bool
        ensures { result ≡ of_pair pair.from pair.to self.now }
    {
        pair == Pair {
            from: self.from,
            to: self.to,
        }
    }

    fn is_under_way(&self, pair: Pair) -> bool
        ensures { result ≡ is_under pair.from pair.to self.now }
    {
        self.is_of_pair(pair) && !self.arrived
    }

    fn has_arrived(&self, pair: Pair, tag: u32) -> bool
        ensures { result ≡ is_tagged pair.from pair.to tag self.now }
    {
        self.is_of_pair(pair) && self.arrived && self.tag == tag
    }

    // The message's words over the front of a buffer, and how many they are.
    fn read(&self, buffer: &mut [u32]) -> usize
        requires brief { self.now.length ≤ MAX_WORDS }
        requires space { MAX_WORDS ≤ length buffer.old }
        ensures count { result ≡ length (message_of self.now).words }
        ensures words { buffer.new ≡ written (Some (message_of self.now)) buffer.old }
    {
        let words = &self.words[..self.length];
        buffer[..words.len()].copy_from_slice(words);
        words.len()
    }
}

// The words of a message, with zeros behind them.
fn held(words: &[u32]) -> [u32; MAX_WORDS]
    requires { length words.now ≤ MAX_WORDS }
    ensures len { length result ≡ MAX_WORDS }
    ensures front { take (length words.now) result ≡ words.now }
{
    let mut block = [0; MAX_WORDS];
    block[..words.len()].copy_from_slice(words);
    block
}

// Takes one of the first `used` records out: those that follow it move down by one place. Answers how many are left.
#[tactic(auto, using(transport::proofs::Gaps::gap_closed))]
fn remove(records: &mut [Record], used: usize, at: usize) -> usize
    requires place { at < used }
    requires within { used ≤ length records.old }
    ensures row { take result records.new ≡ remove (take used records.old) at }
    ensures left { result ≡ used - 1 }
{
    records.copy_within(at + 1..used, at);
    used - 1
}

// Whether a log of so many ranks may be made of that many lent records.
fn is_usable(ranks: usize, lent: usize) -> bool
    ensures { result ≡ usable ranks lent }
{
    (1..=MAX_RANKS).contains(&ranks) && lent >= 1
}

// A log holds the lent records that it uses, of which the first `used` have a message that waits.
// A log that may not be used has no ranks and no room, and never writes a record.
#[derive(Drop)]
pub struct Log<'a> {
    records: &'a mut [Record],
    used: usize,
    ranks: usize,
    room: usize,
    ghost sound: { SoundLog ranks room used records.now } by { SoundLog-prop ranks room used records.now },
}

impl<'a> Log<'a> {
    ghost use Rattle.shared_log.specs.Meaning.{live, log_meaning};

    // A log of so many ranks over the first of the lent records, as many as a log uses.
    #[tactic(auto, using(crate::proofs::Calls::take_least))]
    pub fn new(ranks: usize, records: &'a mut [Record]) -> Log<'a>
        ensures meaning { log_meaning result ≡ new_network ranks (length records.old) }
        ensures untouched { result.records.now ≡ new_records ranks records.old }
    {
        if !is_usable(ranks, records.len()) {
            return Log {
                records,
                used: 0,
                ranks: 0,
                room: 0,
            };
        }
        let room = records.len().min(MAX_RECORDS);
        Log {
            records: &mut records[..room],
            used: 0,
            ranks,
            room,
        }
    }

    // The records of the messages that wait.
    fn in_use(&self) -> &[Record]
        ensures { result.now ≡ live self.now }
    {
        &self.records[..self.used]
    }

    // How many messages wait between two ranks.
    fn count(&self, pair: Pair) -> usize
        ensures { result ≡ length (filter (of_pair pair.from pair.to) (live self.now)) }
    {
        self.in_use()
            .iter()
            .filter(|record| record.is_of_pair(pair))
            .count()
    }

    // The place of the oldest message under way between two ranks.
    fn oldest_under_way(&self, pair: Pair) -> Option<usize>
        ensures { result ≡ position (is_under pair.from pair.to) (live self.now) }
    {
        self.in_use()
            .iter()
            .position(|record| record.is_under_way(pair))
    }

    // The place of the oldest message with a tag that has arrived between two ranks.
    fn oldest_arrived(&self, pair: Pair, tag: u32) -> Option<usize>
        ensures { result ≡ position (is_tagged pair.from pair.to tag) (live self.now) }
    {
        self.in_use()
            .iter()
            .position(|record| record.has_arrived(pair, tag))
    }

    // Why a log whose records are all used refuses a message.
    fn full(&self, pair: Pair) -> Fault
        ensures { result ≡ full_fault self.now.room (length (filter (of_pair pair.from pair.to) (live self.now))) }
    {
        if self.count(pair) >= self.room {
            Fault::PairFull
        } else {
            Fault::NoRoom
        }
    }
}

impl Transport for Log<'_> {
    ghost use Rattle.shared_log.specs.Meaning.{log_meaning};
    ghost use Rattle.shared_log.specs.Shape.{log_shaped};

    const MESSAGE_LIMIT: usize = MAX_WORDS;

    ghost most = { most_words };

    ghost meaning = { log_meaning };

    fn limit(&self) -> usize {
        Self::MESSAGE_LIMIT
    }

    fn ranks(&self) -> usize {
        self.ranks
    }

    fn depth(&self) -> usize {
        self.room()
    }

    fn room(&self) -> usize {
        self.room // for all pairs together
    }

    #[tactic(auto, using(crate::proofs::Calls::net_waiting, crate::proofs::Calls::live_length))]
    fn waiting(&self) -> usize {
        self.in_use().len()
    }

    #[tactic(auto, using(crate::proofs::Rows::listed_count), unfolding(transport::specs::Network::between_reply))]
    fn waiting_between(&self, pair: Pair) -> Result<usize, Fault> {
        if !pair.is_among(self.ranks) {
            return Err(Fault::BadPair);
        }
        Ok(self.count(pair))
    }

    #[tactic(auto, unfolding(transport::specs::Network::send_reply, transport::specs::Network::after_send))]
    fn send(&mut self, pair: Pair, tag: u32, words: &[u32]) -> Result<(), Fault> {
        if !pair.is_among(self.ranks) {
            return Err(Fault::BadPair);
        }
        if words.len() > Self::MESSAGE_LIMIT {
            return Err(Fault::TooLong);
        }
        if self.used >= self.room {
            return Err(self.full(pair));
        }
        self.records[self.used] = Record {
            from: pair.from,
            to: pair.to,
            tag,
            length: words.len(),
            words: held(words),
            arrived: false,
        };
        self.used += 1;
        Ok(())
    }

    #[tactic(auto, using(crate::proofs::Calls::none_under), unfolding(transport::specs::Network::carry_reply, transport::specs::Network::after_carry))]
    fn carry(&mut self, pair: Pair) -> Result<bool, Fault> {
        if !pair.is_among(self.ranks) {
            return Err(Fault::BadPair);
        }
        match self.oldest_under_way(pair) {
            Some(at) => {
                self.records[at].arrived = true;
                Ok(true)
            }
            None => Ok(false),
        }
    }

    #[tactic(auto, using(crate::proofs::Calls::none_arrived), unfolding(transport::specs::Network::take_reply, transport::specs::Network::after_take, transport::specs::Network::taken_words))]
    fn take(&mut self, pair: Pair, tag: u32, buffer: &mut [u32]) -> Result<Option<usize>, Fault> {
        if !pair.is_among(self.ranks) {
            return Err(Fault::BadPair);
        }
        if buffer.len() < Self::MESSAGE_LIMIT {
            return Err(Fault::ShortBuffer);
        }
        match self.oldest_arrived(pair, tag) {
            Some(at) => {
                let record = self.records[at];
                let length = record.read(buffer);
                self.used = remove(self.records, self.used, at);
                Ok(Some(length))
            }
            None => Ok(None),
        }
    }

    ghost shaped = { log_shaped };
}
