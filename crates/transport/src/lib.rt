// Transports of messages between ranks: one trait, one meaning, and why a call is refused.
#![tactic(auto)]

ghost use Rattle.std.specs.Prelude.{◌≡◌, ℕ, ◌<◌, ◌≤◌, length};
ghost use Rattle.transport.specs.Network.{Network, Shaped, message, fault_number};
ghost use Rattle.transport.specs.Network.{sending, carrying, taking, counting};
ghost use Rattle.transport.specs.Network.{waiting as waiting_in_all, between_reply};
ghost use Rattle.transport.specs.Network.{send_reply, after_send, carry_reply, after_carry};
ghost use Rattle.transport.specs.Network.{take_reply, after_take, taken_words};

use ranks::Pair;

// Why a transport refuses a call.
#[derive(Clone, Copy, PartialEq, Eq, Debug)]
pub enum Fault {
    // a rank that is not below the number of ranks, or the same rank twice
    BadPair,
    // more words than a message may have
    TooLong,
    // no more messages may wait between the two ranks
    PairFull,
    // no more messages may wait in all
    NoRoom,
    // a buffer that is shorter than the longest message
    ShortBuffer,
}

impl Fault {
    // The number of the refusal.
    pub fn number(self) -> u32
        ensures { result ≡ fault_number self }
    {
        match self {
            Fault::BadPair => 10,
            Fault::TooLong => 11,
            Fault::PairFull => 12,
            Fault::NoRoom => 13,
            Fault::ShortBuffer => 14,
        }
    }
}

// A transport means a network. What its own state has to be is an invariant of its type, so a call asks for nothing.
// A refused call changes nothing.
pub trait Transport {
    // The most words of a message, which belongs to the kind of transport.
    const MESSAGE_LIMIT: usize;

    // the same number, for contracts
    ghost most: { ℕ };

    // the network that a transport stands for
    ghost meaning: { Self → Network };

    // How many words a message may have.
    fn limit(&self) -> usize
        ensures { result ≡ most };

    // How many ranks there are.
    fn ranks(&self) -> usize
        ensures { result ≡ (meaning self.now).ranks };

    // How many messages may wait between two ranks.
    fn depth(&self) -> usize
        ensures { result ≡ (meaning self.now).depth };

    // How many messages may wait in all.
    fn room(&self) -> usize
        ensures { result ≡ (meaning self.now).room };

    // How many messages wait in all.
    fn waiting(&self) -> usize
        ensures { result ≡ waiting_in_all (meaning self.now) };

    // How many messages wait from one rank to another.
    fn waiting_between(&self, pair: Pair) -> Result<usize, Fault>
        ensures { counting result ≡ between_reply (meaning self.now) pair.from pair.to };

    // Puts a message under way.
    fn send(&mut self, pair: Pair, tag: u32, words: &[u32]) -> Result<(), Fault>
        ensures answer { sending result ≡ send_reply (meaning self.old) pair.from pair.to words.now }
        ensures after { meaning self.new ≡ after_send (meaning self.old) pair.from pair.to (message tag words.now) };

    // Lets the oldest message under way arrive; false where there is none.
    fn carry(&mut self, pair: Pair) -> Result<bool, Fault>
        ensures answer { carrying result ≡ carry_reply (meaning self.old) pair.from pair.to }
        ensures after { meaning self.new ≡ after_carry (meaning self.old) pair.from pair.to };

    // Takes out the oldest arrived message with a tag: its words go to the front of the buffer, and the answer is how many
    // they are, or none where there is no such message.
    fn take(&mut self, pair: Pair, tag: u32, buffer: &mut [u32]) -> Result<Option<usize>, Fault>
        ensures answer { taking result ≡ take_reply (meaning self.old) pair.from pair.to tag (length buffer.old) }
        ensures words { buffer.new ≡ taken_words (meaning self.old) pair.from pair.to tag buffer.old }
        ensures after { meaning self.new ≡ after_take (meaning self.old) pair.from pair.to tag (length buffer.old) };

    // what the network of every transport is like
    ghost shaped: { (x : Self) → Shaped most (meaning x) };
}
