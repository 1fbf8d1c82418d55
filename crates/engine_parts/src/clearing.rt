// What abandoning a job does to a transport.
ghost use Rattle.std.specs.Prelude.{◌≡◌, ◌+◌, ◌*◌, ◌<◌, ◌≤◌, true, is_some};
ghost use Rattle.transport.specs.Network.{carried, oldest};
ghost use Rattle.ranks.specs.Ranks.{pair_ok};
ghost use Rattle.engine_parts.specs.Mail.{with_taken};
ghost use Rattle.engine_parts.specs.Clearing.{some_in, delivered, tagged, of_job, purged, cleared, one_pair, row_below, with_abandoned};

use ranks::Pair;
use transport::Transport;

// A job's tags are sixteen, one for each label.
pub const LABELS: u32 = 16;

// Carries one message, if one is under way.
fn carry_one<T: Transport>(transport: &mut T, pair: Pair) -> bool
    requires { pair_ok (T.meaning transport.old).ranks pair.from pair.to ≡ true }
    ensures answer { result ≡ some_in ((T.meaning transport.old).under pair.from pair.to) }
    ensures after { T.meaning transport.new ≡ carried (T.meaning transport.old) pair.from pair.to ((T.meaning transport.old).under pair.from pair.to) }
{
    transport.carry(pair).unwrap()
}

// Carries all that is under way between two ranks.
fn carry_all<T: Transport>(transport: &mut T, pair: Pair)
    requires { pair_ok (T.meaning transport.old).ranks pair.from pair.to ≡ true }
    ensures { T.meaning transport.new ≡ delivered pair.from pair.to (T.meaning transport.old) }
{
    while carry_one(transport, pair) {}
}

// Takes out the oldest message with a tag, if one has arrived.
fn take_one<T: Transport>(transport: &mut T, pair: Pair, tag: u32) -> bool
    requires { pair_ok (T.meaning transport.old).ranks pair.from pair.to ≡ true }
    ensures answer { result ≡ is_some (oldest tag ((T.meaning transport.old).arrived pair.from pair.to)) }
    ensures after { T.meaning transport.new ≡ with_taken (T.meaning transport.old) pair.from pair.to tag }
{
    let mut words = [0; 8];
    transport.take(pair, tag, &mut words).unwrap().is_some()
}

// Takes out all that has arrived with a tag.
fn take_all<T: Transport>(transport: &mut T, pair: Pair, tag: u32)
    requires { pair_ok (T.meaning transport.old).ranks pair.from pair.to ≡ true }
    ensures { T.meaning transport.new ≡ purged (tagged tag) pair.from pair.to (T.meaning transport.old) }
{
    while take_one(transport, pair, tag) {}
}

// Takes out all that has arrived of a job.
fn take_job<T: Transport>(transport: &mut T, pair: Pair, number: u32)
    requires among { pair_ok (T.meaning transport.old).ranks pair.from pair.to ≡ true }
    requires small { number ≤ 65535 }
    ensures { T.meaning transport.new ≡ purged (of_job number) pair.from pair.to (T.meaning transport.old) }
{
    for label in 0..LABELS {
        take_all(transport, pair, LABELS * number + label);
    }
}

// Carries all between two ranks and takes out what is of a job; other than two different ranks have nothing waiting.
fn clear_pair<T: Transport>(transport: &mut T, pair: Pair, number: u32)
    requires { number ≤ 65535 }
    ensures { T.meaning transport.new ≡ cleared number (one_pair pair.from pair.to) (T.meaning transport.old) }
{
    if transport.waiting_between(pair).unwrap_or(0) == 0 {
        return;
    }
    carry_all(transport, pair);
    take_job(transport, pair, number);
}

// Clears what a rank has sent to the ranks below `ranks`.
fn clear_row<T: Transport>(transport: &mut T, from: usize, ranks: usize, number: u32)
    requires { number ≤ 65535 }
    ensures { T.meaning transport.new ≡ cleared number (row_below from ranks) (T.meaning transport.old) }
{
    for to in 0..ranks {
        clear_pair(transport, Pair { from, to }, number);
    }
}

// Carries all that is under way in the whole transport, and takes out the messages of a job.
pub fn clear_job<T: Transport>(transport: &mut T, number: u32)
    requires { number ≤ 65535 }
    ensures { T.meaning transport.new ≡ with_abandoned number (T.meaning transport.old) }
{
    let ranks = transport.ranks();
    for from in 0..ranks {
        clear_row(transport, from, ranks, number);
    }
}
