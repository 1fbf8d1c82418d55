// Counts the lines, words and bytes of standard input as eight ranks would: each measures its part, and collective jobs
// over messages join the counts. Then it shows a join that does not commute, and last the whole as `wc` does.
#![tactic(auto)]

use engine::answer;
use operation::affine::Affine;
use operation::text::Text;
use schedule::Collective;
use std::io;
use std::io::Read;

mod collect;
mod parts;

use collect::{BLANK, RECORDS, Refusal, layers, over};
use parts::{Blocks, RANKS, Tally, Totals, WIDTH, pack_parts};

const EVERYONE: [usize; RANKS] = [0, 1, 2, 3, 4, 5, 6, 7];

// The maps y → 2y + 1, y → 3y + 4 and y → 5y + 6.
const MAPS: [[u32; 2]; 3] = [[2, 1], [3, 4], [5, 6]];

// What the job of that name came to.
fn print_outcome(
    rt: &HostRuntime,
    name: &str,
    outcome: Result<answer::Tally, Refusal>,
) -> io::Result<()> {
    match outcome {
        Ok(t) => println!(rt; "{name} rounds {} messages {}", t.rounds, t.messages),
        Err(refusal) => println!(rt; "{name} {refusal}"),
    }
}

// Each rank's part, and all up to it, which a scan gives.
fn print_ranks(rt: &HostRuntime, parts: &Blocks, sums: &Blocks) -> io::Result<()> {
    for (rank, (part, sum)) in parts.iter().zip(sums).enumerate() {
        let part = Totals::of_block(part);
        let sum = Totals::of_block(sum);
        println!(rt; "rank {rank} {part} so far {sum}")?;
    }
    Ok(())
}

// The maps, and what those up to each come to, the first one done first.
fn print_maps(rt: &HostRuntime) -> io::Result<()> {
    let Ok(modulo_ten) = Affine::new(10) else {
        return Ok(());
    };
    let mut records = [BLANK; RECORDS];
    let mut sums = [[0; 2]; 3];
    let outcome = over(
        modulo_ten,
        layers(&mut records, &EVERYONE[0..3]),
        Collective::Scan,
        MAPS.as_flattened(),
        sums.as_flattened_mut(),
    );
    for (i, ([a, b], [c, d])) in MAPS.iter().zip(&sums).enumerate() {
        println!(rt; "map {i} {a}y + {b} so far {c}y + {d} modulo 10")?;
    }
    print_outcome(rt, "maps scan", outcome)
}

// What a job on the blocks of texts gives, and what it came to.
fn join_texts(job: Collective, blocks: &Blocks) -> (Blocks, Result<answer::Tally, Refusal>) {
    let mut records = [BLANK; RECORDS];
    let mut out = [[0; WIDTH]; RANKS];
    let outcome = over(
        Text,
        layers(&mut records, &EVERYONE),
        job,
        blocks.as_flattened(),
        out.as_flattened_mut(),
    );
    (out, outcome)
}

fn main(rt: HostRuntime) -> io::Result<()> {
    let mut text = Vec::new(rt.alloc());
    rt.stdin().read_to_end(&mut text)?;
    let tally = Tally::of(text.as_slice());
    let blocks = pack_parts(&tally.parts);
    let (sums, scan) = join_texts(Collective::Scan, &blocks);
    let (whole, allreduce) = join_texts(Collective::Allreduce, &blocks);
    print_ranks(&rt, &blocks, &sums)?;
    print_outcome(&rt, "text scan", scan)?;
    print_outcome(&rt, "text allreduce", allreduce)?;
    let all = Totals::of_block(&whole[0]);
    println!(rt; "all ranks {all}")?;
    print_maps(&rt)?;
    let t = Totals::from(tally.whole);
    println!(rt; "{:>7} {:>7} {:>7}", t.lines, t.words, t.bytes)
}
