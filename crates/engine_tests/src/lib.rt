// Tests of the engine: each refusal at its place and in its order, jobs beside each other, and jobs given up.
// A token must not fall, so a test spends its tokens first and compares what it saw last.
#![tactic(auto)]

use engine::answer::{EndFault, StartFault, Tally, Turn, TurnFault, UnknownJob};
use engine::state::Engine;
use engine::token::Token;
use operation::Operation;
use ranks::Pair;
use runner::run;
use schedule::Collective;
use transport::Transport;

// Gives up the job of a start, or tells why there is none.
fn give_up<O: Operation, T: Transport>(
    engine: &mut Engine<O, T>,
    started: Result<Token, StartFault>,
) -> Option<StartFault> {
    match started {
        Ok(token) => {
            let _ = engine.abandon(token);
            None
        }
        Err(fault) => Some(fault),
    }
}

// A start that is given up at once: its fault.
fn refusal<O: Operation, T: Transport>(
    engine: &mut Engine<O, T>,
    job: Collective,
    words: &[u32],
) -> Option<StartFault> {
    let started = engine.start(job, words);
    give_up(engine, started)
}

// Ends the job; where that is refused, gives it up.
fn finish<O: Operation, T: Transport>(
    engine: &mut Engine<O, T>,
    token: Token,
    words: &mut [u32],
) -> Result<Tally, EndFault> {
    match engine.end(token, words) {
        Ok(tally) => Ok(tally),
        Err((fault, back)) => {
            let _ = engine.abandon(back);
            Err(fault)
        }
    }
}

// Starts a job and gives it up, so many times: how many were started.
fn spend_numbers<O: Operation, T: Transport>(
    engine: &mut Engine<O, T>,
    job: Collective,
    words: &[u32],
    times: u32,
) -> usize {
    (0..times)
        .filter(|_| refusal(engine, job, words).is_none())
        .count()
}

// Five jobs of three ranks, and between the fourth and the fifth one whose first block is bad: their faults.
fn five_jobs<O: Operation, T: Transport>(
    engine: &mut Engine<O, T>,
    words: &[u32],
    bad: &[u32],
) -> [Option<StartFault>; 6] {
    let first = engine.start(Collective::Scan, words);
    let second = engine.start(Collective::Reduce { root: 2 }, words);
    let third = engine.start(Collective::Gather { root: 1 }, words);
    let fourth = engine.start(Collective::Allreduce, words);
    let block = refusal(engine, Collective::Scan, bad);
    let fifth = refusal(engine, Collective::Exscan, words);
    [
        give_up(engine, first),
        give_up(engine, second),
        give_up(engine, third),
        give_up(engine, fourth),
        block,
        fifth,
    ]
}

// Three scans beside each other: their faults.
fn scans<O: Operation, T: Transport>(
    engine: &mut Engine<O, T>,
    words: &[u32],
) -> [Option<StartFault>; 3] {
    let first = engine.start(Collective::Scan, words);
    let second = engine.start(Collective::Scan, words);
    let third = refusal(engine, Collective::Scan, words);
    [give_up(engine, first), give_up(engine, second), third]
}

// What the calls answer that are shown a token, an end with too few words and then one with enough.
#[derive(Clone, Copy)]
struct Shown {
    turned: Result<Turn, TurnFault>,
    looked: Result<usize, UnknownJob>,
    short: Result<Tally, EndFault>,
    ended: Result<Tally, EndFault>,
}

// Starts a job, shows its token to a turn, a look and two ends, and spends it.
fn start_and_show<O: Operation, T: Transport>(
    engine: &mut Engine<O, T>,
    job: Collective,
    inputs: &[u32],
    rank: usize,
    few: &mut [u32],
    words: &mut [u32],
) -> Result<Shown, StartFault> {
    let token = engine.start(job, inputs)?;
    let turned = engine.turn(&token, rank);
    let looked = engine.look(&token);
    let (short, ended) = match engine.end(token, few) {
        Ok(tally) => (Ok(tally), Err(EndFault::UnknownJob)),
        Err((fault, back)) => (Err(fault), finish(engine, back, words)),
    };
    Ok(Shown {
        turned,
        looked,
        short,
        ended,
    })
}

// What the calls of an engine answer that are shown a token of another one.
#[derive(Clone, Copy)]
struct Foreign {
    turned: Result<Turn, TurnFault>,
    looked: Result<usize, UnknownJob>,
    ended: Result<Tally, EndFault>,
    given_up: Result<(), UnknownJob>,
}

// Starts a job on one engine and shows its token to another, which has a job of its own.
fn show_to_another<O: Operation, T: Transport>(
    engine: &mut Engine<O, T>,
    other: &mut Engine<O, T>,
    inputs: &[u32],
    words: &mut [u32],
) -> Result<Foreign, StartFault> {
    let mine = other.start(Collective::Scan, inputs);
    let shown = match engine.start(Collective::Scan, inputs) {
        Ok(token) => Ok(show_foreign(other, token, words)),
        Err(fault) => Err(fault),
    };
    give_up(other, mine);
    shown
}

// Shows a token to a turn, a look and an end, and gives its job up.
fn show_foreign<O: Operation, T: Transport>(
    engine: &mut Engine<O, T>,
    token: Token,
    words: &mut [u32],
) -> Foreign {
    let turned = engine.turn(&token, 3);
    let looked = engine.look(&token);
    let (ended, given_up) = match engine.end(token, words) {
        Ok(tally) => (Ok(tally), Ok(())),
        Err((fault, back)) => (Err(fault), engine.abandon(back)),
    };
    Foreign {
        turned,
        looked,
        ended,
        given_up,
    }
}

// Two scans of three ranks: both have a message on the way from 0 to 1, and rank 1 takes the second one's first.
fn interleave<O: Operation, T: Transport>(
    engine: &mut Engine<O, T>,
    first: &Token,
    second: &Token,
) -> [Result<Turn, TurnFault>; 6] {
    let pair = Pair { from: 0, to: 1 };
    let a = engine.turn(first, 0);
    let b = engine.turn(second, 0);
    let _ = engine.carry(pair);
    let _ = engine.carry(pair);
    let c = engine.turn(second, 1);
    let d = engine.turn(second, 1);
    let e = engine.turn(first, 1);
    let f = engine.turn(first, 1);
    [a, b, c, d, e, f]
}

// The blocks of a scan, and the words lent for its answer.
#[derive(Drop)]
struct Blocks<'a> {
    inputs: &'a [u32],
    out: &'a mut [u32],
}

// How two jobs beside each other came out.
#[derive(Clone, Copy)]
struct Beside {
    turns: [Result<Turn, TurnFault>; 6],
    first: Result<Tally, EndFault>,
    second: Result<Tally, EndFault>,
}

// Interleaves two jobs and ends the first; the second is run to its end, or given up before the first is.
fn settle_both<O: Operation, T: Transport>(
    engine: &mut Engine<O, T>,
    first: Token,
    second: Token,
    keep: bool,
    one: &mut [u32],
    two: &mut [u32],
) -> Beside {
    let turns = interleave(engine, &first, &second);
    if keep {
        let _ = run(engine, &first, 16);
        let _ = run(engine, &second, 16);
        let first = finish(engine, first, one);
        let second = finish(engine, second, two);
        return Beside {
            turns,
            first,
            second,
        };
    }
    let _ = engine.abandon(second);
    let _ = run(engine, &first, 16);
    Beside {
        turns,
        first: finish(engine, first, one),
        second: Err(EndFault::UnknownJob),
    }
}

// Two scans beside each other.
fn two_scans<O: Operation, T: Transport>(
    engine: &mut Engine<O, T>,
    one: Blocks,
    two: Blocks,
    keep: bool,
) -> Result<Beside, StartFault> {
    let first = engine.start(Collective::Scan, one.inputs)?;
    match engine.start(Collective::Scan, two.inputs) {
        Ok(second) => Ok(settle_both(engine, first, second, keep, one.out, two.out)),
        Err(fault) => {
            let _ = engine.abandon(first);
            Err(fault)
        }
    }
}

#[cfg(test)]
mod tests {
    use super::{
        Blocks, five_jobs, refusal, scans, show_to_another, spend_numbers, start_and_show,
        two_scans,
    };
    use engine::answer::{EndFault, StartFault, Tally, Turn, TurnFault, UnknownJob};
    use engine::state::Engine;
    use mailbox::Mailbox;
    use operation::affine::Affine;
    use operation::fault::BlockFault;
    use ranks::Pair;
    use schedule::Collective;
    use segmented::Segmented;
    use shared_log::{Log, Record};
    use std::test::Fail;
    use transport::{Fault, Transport};

    const BLANK: Record = Record {
        from: 0,
        to: 0,
        tag: 0,
        length: 0,
        words: [0; 4],
        arrived: false,
    };

    // The maps (2, 1), (3, 4), (5, 6) modulo 10, which do not commute.
    const MAPS: [u32; 6] = [2, 1, 3, 4, 5, 6];

    #[test]
    fn an_engine_without_ranks_starts_nothing(rt: HostRuntime) -> Result<(), Fail> {
        let op = Affine::new(10)?;
        let mut records = [BLANK; 8];
        let mut engine = Engine::new(7, op, Log::new(0, &mut records));
        let fault = refusal(&mut engine, Collective::Reduce { root: 3 }, &MAPS);
        let (_, _log) = engine.into_parts();
        assert_eq!(rt; fault, Some(StartFault::Unfit));
        Ok(())
    }

    #[test]
    fn a_block_and_a_stamp_must_fit_a_message(rt: HostRuntime) -> Result<(), Fail> {
        let op = Affine::new(10)?;
        let mut words = [0; 144];
        let mut engine = Engine::new(7, op, Mailbox::new(3, 4, &mut words));
        let fault = refusal(&mut engine, Collective::Scan, &MAPS);
        let (_, _box) = engine.into_parts();
        assert_eq!(rt; fault, Some(StartFault::Unfit));
        Ok(())
    }

    #[test]
    fn nothing_may_wait_at_the_making(rt: HostRuntime) -> Result<(), Fail> {
        let op = Affine::new(10)?;
        let mut records = [BLANK; 8];
        let mut log = Log::new(3, &mut records);
        let sent = log.send(Pair { from: 0, to: 1 }, 5, &[1]);
        let mut engine = Engine::new(7, op, log);
        let fault = refusal(&mut engine, Collective::Scan, &MAPS);
        let (_, _log) = engine.into_parts();
        assert_eq!(rt; sent, Ok(()));
        assert_eq!(rt; fault, Some(StartFault::Unfit));
        Ok(())
    }

    // Each start has the fault that is named and the one that comes after it in the order.
    #[test]
    fn a_start_gives_the_first_refusal(rt: HostRuntime) -> Result<(), Fail> {
        let op = Affine::new(10)?;
        let mut records = [BLANK; 64];
        let mut engine = Engine::new(7, op, Log::new(3, &mut records));
        let root = refusal(&mut engine, Collective::Reduce { root: 3 }, &MAPS[0..5]);
        let length = refusal(&mut engine, Collective::Scan, &[10, 0, 0, 0, 0]);
        let faults = five_jobs(&mut engine, &MAPS, &[9, 9, 9, 10, 10, 0]);
        let (_, _log) = engine.into_parts();
        assert_eq!(rt; root, Some(StartFault::BadRoot));
        assert_eq!(rt; length, Some(StartFault::BadLength));
        let fault = BlockFault::WrongWord(1);
        let block = Some(StartFault::BadBlock { rank: 1, fault });
        let fifth = Some(StartFault::FourPending);
        assert_eq!(rt; faults, [None, None, None, None, block, fifth]);
        Ok(())
    }

    // Room for the messages of two scans, which are three each.
    #[test]
    fn a_job_that_could_meet_the_room_is_refused(rt: HostRuntime) -> Result<(), Fail> {
        let op = Affine::new(10)?;
        let mut records = [BLANK; 6];
        let mut engine = Engine::new(7, op, Log::new(3, &mut records));
        let faults = scans(&mut engine, &MAPS);
        let (_, _log) = engine.into_parts();
        assert_eq!(rt; faults, [None, None, Some(StartFault::Crowded)]);
        Ok(())
    }

    // Four slots a pair are one message of the layer.
    #[test]
    fn a_second_job_on_a_box_of_depth_four_is_refused(rt: HostRuntime) -> Result<(), Fail> {
        let op = Affine::new(10)?;
        let mut words = [0; 144];
        let mailbox = Mailbox::new(3, 4, &mut words);
        let mut engine = Engine::new(7, op, Segmented::new(mailbox));
        let faults = scans(&mut engine, &MAPS);
        let (_, _layer) = engine.into_parts();
        let crowded = Some(StartFault::Crowded);
        assert_eq!(rt; faults, [None, crowded, crowded]);
        Ok(())
    }

    // Two records hold the messages of a broadcast and not those of a scan.
    #[test]
    fn the_numbers_are_spent(rt: HostRuntime) -> Result<(), Fail> {
        let op = Affine::new(10)?;
        let mut records = [BLANK; 2];
        let mut engine = Engine::new(7, op, Log::new(3, &mut records));
        let job = Collective::Broadcast { root: 0 };
        let started = spend_numbers(&mut engine, job, &MAPS, 65535);
        let crowded = refusal(&mut engine, Collective::Scan, &MAPS);
        let spent = refusal(&mut engine, job, &MAPS);
        let (_, _log) = engine.into_parts();
        assert_eq!(rt; started, 65535);
        assert_eq!(rt; crowded, Some(StartFault::Crowded));
        assert_eq!(rt; spent, Some(StartFault::NumbersSpent));
        Ok(())
    }

    #[test]
    fn a_token_of_another_engine_is_refused(rt: HostRuntime) -> Result<(), Fail> {
        let op = Affine::new(10)?;
        let mut records = [BLANK; 8];
        let mut others = [BLANK; 8];
        let mut engine = Engine::new(7, op, Log::new(3, &mut records));
        let mut other = Engine::new(8, op, Log::new(3, &mut others));
        let mut out = [7; 6];
        let seen = show_to_another(&mut engine, &mut other, &MAPS, &mut out);
        let (_, _log) = engine.into_parts();
        let (_, _other) = other.into_parts();
        let shown = seen?;
        assert_eq!(rt; shown.turned, Err(TurnFault::UnknownJob));
        assert_eq!(rt; shown.looked, Err(UnknownJob));
        assert_eq!(rt; shown.ended, Err(EndFault::UnknownJob));
        assert_eq!(rt; shown.given_up, Err(UnknownJob));
        assert_eq!(rt; out, [7; 6]);
        Ok(())
    }

    #[test]
    fn an_unfinished_job_does_not_end(rt: HostRuntime) -> Result<(), Fail> {
        let op = Affine::new(10)?;
        let mut records = [BLANK; 8];
        let mut engine = Engine::new(7, op, Log::new(3, &mut records));
        let mut few = [7; 5];
        let mut out = [7; 6];
        let seen = start_and_show(&mut engine, Collective::Scan, &MAPS, 3, &mut few, &mut out);
        let (_, _log) = engine.into_parts();
        let shown = seen?;
        assert_eq!(rt; shown.turned, Err(TurnFault::BadRank));
        assert_eq!(rt; shown.looked, Ok(0));
        assert_eq!(rt; shown.short, Err(EndFault::Unfinished));
        assert_eq!(rt; shown.ended, Err(EndFault::Unfinished));
        assert_eq!(rt; few, [7; 5]);
        assert_eq!(rt; out, [7; 6]);
        Ok(())
    }

    #[test]
    fn one_rank_has_nothing_to_do(rt: HostRuntime) -> Result<(), Fail> {
        let op = Affine::new(10)?;
        let mut records = [BLANK; 1];
        let mut engine = Engine::new(7, op, Log::new(1, &mut records));
        let mut few = [7; 1];
        let mut out = [7; 3];
        let seen = start_and_show(
            &mut engine,
            Collective::Allreduce,
            &[2, 1],
            0,
            &mut few,
            &mut out,
        );
        let (_, _log) = engine.into_parts();
        let shown = seen?;
        assert_eq!(rt; shown.turned, Ok(Turn::Through));
        assert_eq!(rt; shown.looked, Ok(1));
        assert_eq!(rt; shown.short, Err(EndFault::TooFewWords));
        let nothing = Tally {
            rounds: 0,
            messages: 0,
        };
        assert_eq!(rt; shown.ended, Ok(nothing));
        assert_eq!(rt; few, [7]);
        assert_eq!(rt; out, [2, 1, 7]);
        Ok(())
    }

    #[test]
    fn a_carry_asks_for_two_ranks(rt: HostRuntime) -> Result<(), Fail> {
        let op = Affine::new(10)?;
        let mut records = [BLANK; 2];
        let mut engine = Engine::new(7, op, Log::new(3, &mut records));
        let past = engine.carry(Pair { from: 0, to: 3 });
        let same = engine.carry(Pair { from: 1, to: 1 });
        let none = engine.carry(Pair { from: 0, to: 1 });
        let (_, _log) = engine.into_parts();
        assert_eq!(rt; past, Err(Fault::BadPair));
        assert_eq!(rt; same, Err(Fault::BadPair));
        assert_eq!(rt; none, Ok(false));
        Ok(())
    }

    const OTHERS: [u32; 6] = [5, 6, 3, 4, 2, 1];

    // What the two have in common: each sent and took in its turn.
    const TURNS: [Result<Turn, TurnFault>; 6] = [
        Ok(Turn::Sent),
        Ok(Turn::Sent),
        Ok(Turn::Sent),
        Ok(Turn::Took),
        Ok(Turn::Sent),
        Ok(Turn::Took),
    ];

    const SCAN: Tally = Tally {
        rounds: 2,
        messages: 3,
    };

    #[test]
    fn two_jobs_do_not_mix(rt: HostRuntime) -> Result<(), Fail> {
        let op = Affine::new(10)?;
        let mut records = [BLANK; 16];
        let mut engine = Engine::new(7, op, Log::new(3, &mut records));
        let mut one = [7; 7];
        let mut two = [7; 7];
        let seen = two_scans(
            &mut engine,
            Blocks {
                inputs: &MAPS,
                out: &mut one,
            },
            Blocks {
                inputs: &OTHERS,
                out: &mut two,
            },
            true,
        );
        let (_, _log) = engine.into_parts();
        let beside = seen?;
        assert_eq!(rt; beside.turns, TURNS);
        assert_eq!(rt; beside.first, Ok(SCAN));
        assert_eq!(rt; beside.second, Ok(SCAN));
        assert_eq!(rt; one, [2, 1, 6, 7, 0, 1, 7]);
        assert_eq!(rt; two, [5, 6, 5, 2, 0, 5, 7]);
        Ok(())
    }

    #[test]
    fn a_job_given_up_leaves_the_other_alone(rt: HostRuntime) -> Result<(), Fail> {
        let op = Affine::new(10)?;
        let mut records = [BLANK; 16];
        let mut engine = Engine::new(7, op, Log::new(3, &mut records));
        let mut one = [7; 6];
        let mut two = [7; 6];
        let seen = two_scans(
            &mut engine,
            Blocks {
                inputs: &MAPS,
                out: &mut one,
            },
            Blocks {
                inputs: &OTHERS,
                out: &mut two,
            },
            false,
        );
        let (_, log) = engine.into_parts();
        let waiting = log.waiting();
        let beside = seen?;
        assert_eq!(rt; beside.turns, TURNS);
        assert_eq!(rt; beside.first, Ok(SCAN));
        assert_eq!(rt; one, [2, 1, 6, 7, 0, 1]);
        assert_eq!(rt; two, [7; 6]);
        assert_eq!(rt; waiting, 0);
        Ok(())
    }
}
