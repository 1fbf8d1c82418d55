// What ranks send each other: a stamp and the block of a value.
ghost use Rattle.std.specs.Prelude.{◌≡◌, ◌+◌, ◌≤◌, true, length, take, Some, None};
ghost use Rattle.transport.specs.Network.{message, sending, send_reply, after_send, oldest};
ghost use Rattle.ranks.specs.Ranks.{pair_ok};
ghost use Rattle.engine_parts.specs.Mail.{words_of, read_words, mail_in, Sent, Legible, with_taken};

use operation::Operation;
use ranks::Pair;
use transport::{Fault, Transport};

#[derive(Clone, Copy)]
pub struct Mail<E: Copy> {
    pub stamp: u32,
    pub value: E,
}

// The words of the message are the first 1 + width of the eight.
fn message_words<O: Operation>(op: &O, mail: Mail<O::Element>) -> [u32; 8]
    requires narrow { (O.meaning op.now).width ≤ 6 }
    requires proper { (O.meaning op.now).proper mail.value ≡ true }
    ensures front { take (1 + (O.meaning op.now).width) result ≡ words_of (O.meaning op.now) mail }
    ensures len { length result ≡ 8 }
{
    let mut words = [0; 8];
    words[0] = mail.stamp;
    op.pack(mail.value, &mut words[1..]);
    words
}

// Sends a rank's message; the answer is the transport's.
pub fn send_value<O: Operation, T: Transport>(
    op: &O,
    transport: &mut T,
    pair: Pair,
    tag: u32,
    mail: Mail<O::Element>,
) -> Result<(), Fault>
    requires narrow { (O.meaning op.now).width ≤ 6 }
    requires proper { (O.meaning op.now).proper mail.value ≡ true }
    ensures answer { sending result ≡ send_reply (T.meaning transport.old) pair.from pair.to (words_of (O.meaning op.now) mail) }
    ensures after { T.meaning transport.new ≡ after_send (T.meaning transport.old) pair.from pair.to (message tag (words_of (O.meaning op.now) mail)) }
{
    let words = message_words(op, mail);
    let size = 1 + op.width();
    transport.send(pair, tag, &words[0..size])
}

// Reads a message that a rank has sent.
fn read_mail<O: Operation>(op: &O, words: &[u32]) -> Mail<O::Element>
    requires narrow { (O.meaning op.now).width ≤ 6 }
    requires sent { Sent (O.meaning op.now) words.now }
    ensures { read_words (O.meaning op.now) words.now ≡ Some result }
{
    let stamp = words[0];
    let value = op.unpack(&words[1..]).unwrap();
    Mail { stamp, value }
}

// Takes the oldest message with a tag, or nothing where none has arrived.
pub fn take_value<O: Operation, T: Transport>(
    op: &O,
    transport: &mut T,
    pair: Pair,
    tag: u32,
) -> Option<Mail<O::Element>>
    requires narrow { (O.meaning op.now).width ≤ 6 }
    requires among { pair_ok (T.meaning transport.old).ranks pair.from pair.to ≡ true }
    requires legible { Legible (O.meaning op.now) (oldest tag ((T.meaning transport.old).arrived pair.from pair.to)) }
    ensures answer { result ≡ mail_in (O.meaning op.now) (oldest tag ((T.meaning transport.old).arrived pair.from pair.to)) }
    ensures after { T.meaning transport.new ≡ with_taken (T.meaning transport.old) pair.from pair.to tag }
    ensures none { result ≡ None → T.meaning transport.new ≡ T.meaning transport.old }
{
    let mut words = [0; 8];
    let size = transport.take(pair, tag, &mut words).unwrap()?;
    Some(read_mail(op, &words[..size]))
}
