// Every kind of transport in use: a round trip that is proved for all of them, and tests of each.
#![tactic(auto)]

ghost use Rattle.std.specs.Prelude.{◌≡◌, ◌≤◌, ◌++◌, length, drop};
ghost use Rattle.transport.specs.Network.{waiting as waiting_in_all, send_reply, done, taking, value};

use ranks::Pair;
use transport::{Fault, Transport};

// Sends a message, carries it and takes it by its tag. Where nothing waits and the message may be sent, the buffer
// begins with its words afterwards, and the transport stands as before.
pub fn there_and_back<T: Transport>(
    transport: &mut T,
    pair: Pair,
    tag: u32,
    words: &[u32],
    buffer: &mut [u32],
) -> Result<Option<usize>, Fault>
    ensures answer { waiting_in_all (T.meaning transport.old) ≡ 0 → send_reply (T.meaning transport.old) pair.from pair.to words.now ≡ done → T.most ≤ length buffer.old → taking result ≡ value (length words.now) }
    ensures words { waiting_in_all (T.meaning transport.old) ≡ 0 → send_reply (T.meaning transport.old) pair.from pair.to words.now ≡ done → T.most ≤ length buffer.old → buffer.new ≡ words.now ++ drop (length words.now) buffer.old }
    ensures after { waiting_in_all (T.meaning transport.old) ≡ 0 → send_reply (T.meaning transport.old) pair.from pair.to words.now ≡ done → T.most ≤ length buffer.old → T.meaning transport.new ≡ T.meaning transport.old }
{
    let _ = transport.send(pair, tag, words);
    let _ = transport.carry(pair);
    transport.take(pair, tag, buffer)
}

#[cfg(test)]
mod tests {
    use group::Group;
    use mailbox::Mailbox;
    use ranks::Pair;
    use segmented::Segmented;
    use shared_log::{Log, Record};
    use std::process::Abort;
    use transport::{Fault, Transport};

    const FILLED: u32 = 0xffffffff;

    const BLANK: Record = Record {
        from: 9,
        to: 9,
        tag: FILLED,
        length: 9,
        words: [FILLED; 4],
        arrived: true,
    };

    // what a transport without ranks has
    const CLOSED: Size = Size {
        ranks: 0,
        depth: 0,
        room: 0,
    };

    const FIRST: Pair = Pair { from: 0, to: 1 };

    // How many ranks a transport has, and how many messages may wait between two and in all.
    #[derive(Clone, Copy, PartialEq, Eq, Debug)]
    struct Size {
        ranks: usize,
        depth: usize,
        room: usize,
    }

    fn sized(ranks: usize, depth: usize, room: usize) -> Size {
        Size { ranks, depth, room }
    }

    fn pair(from: usize, to: usize) -> Pair {
        Pair { from, to }
    }

    // The limit is the kind's, the size is as told, and nothing waits.
    fn stands<T: Transport>(rt: &impl Abort, t: &T, size: Size) {
        assert_eq!(rt; t.limit(), T::MESSAGE_LIMIT);
        assert_eq!(rt; t.ranks(), size.ranks);
        assert_eq!(rt; t.depth(), size.depth);
        assert_eq!(rt; t.room(), size.room);
        assert_eq!(rt; t.waiting(), 0);
    }

    // The calls with these ranks are refused.
    fn no_pair<T: Transport>(rt: &impl Abort, t: &mut T, pair: Pair) {
        assert_eq!(rt; t.send(pair, 1, &[]), Err(Fault::BadPair));
        assert_eq!(rt; t.carry(pair), Err(Fault::BadPair));
        assert_eq!(rt; t.take(pair, 1, &mut []), Err(Fault::BadPair));
        assert_eq!(rt; t.waiting_between(pair), Err(Fault::BadPair));
    }

    // What every transport of three ranks refuses: bad ranks, a message of one word too many, a buffer of one word too few.
    fn refuses<T: Transport>(rt: &impl Abort, t: &mut T) {
        no_pair(rt, t, pair(1, 1));
        no_pair(rt, t, pair(0, 3));
        no_pair(rt, t, pair(3, 0));
        let limit = t.limit();
        assert!(rt; 1 <= limit && limit <= 8);
        assert_eq!(rt;
            t.send(FIRST, 1, &[FILLED; 9][0..limit + 1]),
            Err(Fault::TooLong)
        );
        let mut buffer = [FILLED; 8];
        assert_eq!(rt;
            t.take(FIRST, 1, &mut buffer[0..limit - 1]),
            Err(Fault::ShortBuffer)
        );
        assert_eq!(rt; buffer, [FILLED; 8]);
    }

    // Two messages from 0 to 1, the second taken first.
    fn out_of_order<T: Transport>(rt: &impl Abort, t: &mut T, first: &[u32], second: &[u32]) {
        let mut buffer = [FILLED; 8];
        assert_eq!(rt; t.send(FIRST, 5, first), Ok(()));
        assert_eq!(rt; t.send(FIRST, 6, second), Ok(()));
        assert_eq!(rt; t.take(FIRST, 5, &mut buffer), Ok(None));
        assert_eq!(rt; t.carry(FIRST), Ok(true));
        assert_eq!(rt; t.carry(FIRST), Ok(true));
        assert_eq!(rt; t.carry(FIRST), Ok(false));
        assert_eq!(rt; t.waiting_between(FIRST), Ok(2));
        assert_eq!(rt; t.take(FIRST, 6, &mut buffer), Ok(Some(second.len())));
        assert!(rt; buffer.starts_with(second));
        assert_eq!(rt; buffer[7], FILLED);
        assert_eq!(rt; t.take(FIRST, 5, &mut buffer), Ok(Some(first.len())));
        assert!(rt; buffer.starts_with(first));
        assert_eq!(rt; t.waiting(), 0);
    }

    #[test]
    fn mailbox_memory(rt: HostRuntime) {
        // ranks, depth and lent words, and what the matrix has
        let cases = [
            (2, 1, 16, sized(2, 1, 4)),
            (2, 1, 15, CLOSED),
            (2, 1, 0, CLOSED),
            (0, 1, 16, CLOSED),
            (65, 1, 16, CLOSED),
            (1, 0, 16, CLOSED),
            (1, 65, 16, CLOSED),
        ];
        for (ranks, depth, lent, has) in cases {
            let mut words = [FILLED; 16];
            let boxes = Mailbox::new(ranks, depth, &mut words[..lent.min(16)]);
            stands(&rt, &boxes, has);
            let untouched = words == [FILLED; 16];
            assert_eq!(rt; untouched, has == CLOSED);
        }
    }

    #[test]
    fn log_memory(rt: HostRuntime) {
        // ranks and lent records, and what the log has: its depth is its room
        let cases = [
            (3, 1, sized(3, 1, 1)),
            (3, 0, CLOSED),
            (0, 4, CLOSED),
            (65, 4, CLOSED),
            (64, 1600, sized(64, 1536, 1536)),
        ];
        for (ranks, lent, has) in cases {
            let mut records = [BLANK; 1600];
            let log = Log::new(ranks, &mut records[..lent.min(1600)]);
            stands(&rt, &log, has);
            assert!(rt; records[0] == BLANK);
        }
    }

    #[test]
    fn log_refuses(rt: HostRuntime) {
        let mut records = [BLANK; 3];
        let mut log = Log::new(3, &mut records[0..2]);
        refuses(&rt, &mut log);
        assert_eq!(rt; log.send(FIRST, 1, &[]), Ok(()));
        assert_eq!(rt; log.send(pair(1, 0), 1, &[1, 2, 3, 4]), Ok(()));
        assert_eq!(rt; log.send(FIRST, 1, &[]), Err(Fault::NoRoom));
        assert_eq!(rt; log.carry(pair(1, 0)), Ok(true));
        let mut buffer = [FILLED; 4];
        assert_eq!(rt; log.take(pair(1, 0), 1, &mut buffer), Ok(Some(4)));
        assert_eq!(rt; buffer, [1, 2, 3, 4]);
        assert_eq!(rt; log.send(FIRST, 1, &[]), Ok(()));
        assert_eq!(rt; log.send(FIRST, 1, &[]), Err(Fault::PairFull));
        assert!(rt; records[2] == BLANK);
    }

    #[test]
    fn mailbox_refuses(rt: HostRuntime) {
        let mut words = [FILLED; 37];
        let mut boxes = Mailbox::new(3, 1, &mut words);
        refuses(&rt, &mut boxes);
        assert_eq!(rt; boxes.send(pair(2, 1), 1, &[8, 9]), Ok(()));
        assert_eq!(rt; boxes.send(pair(2, 1), 1, &[]), Err(Fault::PairFull));
        assert_eq!(rt; boxes.send(pair(1, 2), 1, &[]), Ok(()));
        assert_eq!(rt; boxes.waiting(), 2);
        assert_eq!(rt; words[36], FILLED);
    }

    #[test]
    fn group_over_segmented_over_log(rt: HostRuntime) {
        let mut records = [BLANK; 12];
        let mut group = Group::new(Segmented::new(Log::new(4, &mut records)), &[3, 1, 0]);
        stands(&rt, &group, sized(3, 6, 6));
        refuses(&rt, &mut group);
        out_of_order(&rt, &mut group, &[1, 2, 3, 4, 5, 6, 7], &[8]);
        let log = group.into_inner().into_inner();
        stands(&rt, &log, sized(4, 12, 12));
        assert_eq!(rt; records[0].from, 3);
    }

    #[test]
    fn segmented_over_mailbox(rt: HostRuntime) {
        let mut words = [FILLED; 289];
        let mut layer = Segmented::new(Mailbox::new(3, 8, &mut words));
        stands(&rt, &layer, sized(3, 2, 18));
        refuses(&rt, &mut layer);
        out_of_order(&rt, &mut layer, &[], &[1, 2, 3, 4, 5, 6, 7]);
        stands(&rt, &layer.into_inner(), sized(3, 8, 72));
        assert_eq!(rt; words[288], FILLED);
    }

    // lists of ranks that make no group over three ranks
    #[test]
    fn bad_lists(rt: HostRuntime) {
        let mut records = [BLANK; 2];
        stands(&rt, &Group::new(Log::new(3, &mut records), &[]), CLOSED);
        stands(
            &rt,
            &Group::new(Log::new(3, &mut records), &[1, 2, 1]),
            CLOSED,
        );
        stands(&rt, &Group::new(Log::new(3, &mut records), &[0, 3]), CLOSED);
        stands(
            &rt,
            &Group::new(Log::new(3, &mut records), &[0; 65]),
            CLOSED,
        );
    }

    // a layer over a transport where something waits, and over one of too little depth
    #[test]
    fn layers_without_ranks(rt: HostRuntime) {
        let mut records = [BLANK; 4];
        let mut log = Log::new(3, &mut records);
        assert_eq!(rt; log.send(FIRST, 1, &[]), Ok(()));
        let layer = Segmented::new(log);
        stands(&rt, &layer, CLOSED);
        let group = Group::new(layer.into_inner(), &[0, 1]);
        stands(&rt, &group, CLOSED);
        assert_eq!(rt; group.into_inner().waiting(), 1);
        let mut words = [0; 108];
        stands(&rt, &Segmented::new(Mailbox::new(3, 3, &mut words)), CLOSED);
    }
}
