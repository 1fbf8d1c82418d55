// A text in as many parts as there are ranks, measured part by part and joined in rank order.
ghost use Rattle.std.specs.Prelude.{◌≡◌, ℕ, ◌+◌, ◌*◌, ◌<◌, ◌≤◌, fold};
ghost use Rattle.operation.specs.Text.{measured, text as text_meaning};
ghost use Rattle.tally.specs.Parts.{cut_at, part_of, PartsMeasured, totals_of};

use operation::Operation;
use operation::text::{Counts, Text};
use std::{array, fmt};

pub const RANKS: usize = 8;

// How many words the block of a text has.
pub const WIDTH: usize = 4;

// A block of each rank.
pub type Blocks = [[u32; WIDTH]; RANKS];

// What each rank counts of its part, and the whole text.
#[derive(Clone, Copy)]
pub struct Tally {
    pub parts: [Option<Counts>; RANKS],
    pub whole: Option<Counts>,
}

// The counts of a text as numbers, zeros for the empty text.
#[derive(Clone, Copy)]
pub struct Totals {
    pub bytes: u32,
    pub lines: u32,
    pub words: u32,
}

// Where a rank's part begins. Parts are as even as can be, the longer ones first.
#[tactic(auto, using(crate::proofs::Cuts::product_le))]
fn cut(len: usize, rank: usize) -> usize
    requires { rank ≤ 8 }
    ensures place { result ≡ cut_at len rank }
    ensures within { result ≤ len }
{
    len / RANKS * rank + rank.min(len % RANKS)
}

// The element of a rank's part.
fn measure_part(text: &[u8], rank: usize) -> Option<Counts>
    requires { rank < 8 }
    ensures { result ≡ measured (part_of text.now rank) }
{
    let from = cut(text.len(), rank);
    let to = cut(text.len(), rank + 1);
    Text::measure(&text[from..to])
}

// The element of each rank's part.
fn measure_parts(text: &[u8]) -> [Option<Counts>; RANKS]
    ensures { PartsMeasured text.now result }
{
    array::from_fn(|rank| measure_part(text, rank))
}

// The join of all, in rank order.
fn join_all(parts: &[Option<Counts>]) -> Option<Counts>
    ensures { result ≡ fold text_meaning.join text_meaning.unit parts.now }
{
    parts.iter().fold(Text.unit(), |sum, x| Text.join(sum, *x))
}

impl Tally {
    // Measures a text in parts; the join of the parts is the measure of the whole.
    #[tactic(auto, using(crate::proofs::Cuts::joined_parts))]
    pub fn of(text: &[u8]) -> Tally
        ensures parts { PartsMeasured text.now result.parts }
        ensures whole { result.whole ≡ measured text.now }
    {
        let parts = measure_parts(text);
        let whole = join_all(&parts);
        Tally { parts, whole }
    }
}

// The block of a part.
fn pack_part(part: Option<Counts>) -> [u32; WIDTH] {
    let mut block = [0; WIDTH];
    Text.pack(part, &mut block);
    block
}

// The blocks of all parts, in rank order.
pub fn pack_parts(parts: &[Option<Counts>; RANKS]) -> Blocks {
    parts.map(pack_part)
}

impl From<Option<Counts>> for Totals {
    ghost from_gives = { λ x r. r ≡ totals_of x };

    fn from(value: Option<Counts>) -> Totals {
        let Some(c) = value else {
            return Totals {
                bytes: 0,
                lines: 0,
                words: 0,
            };
        };
        Totals {
            bytes: c.bytes,
            lines: c.lines,
            words: c.words,
        }
    }
}

impl Totals {
    // The counts of a block.
    pub fn of_block(block: &[u32]) -> Totals {
        Text.unpack(block).unwrap_or_default().into()
    }
}

impl fmt::Display for Totals {
    fn fmt<W: fmt::Write>(&self, f: &mut fmt::Formatter<W>) -> fmt::Result {
        let Totals {
            bytes,
            lines,
            words,
        } = self;
        write!(f, "bytes {bytes} lines {lines} words {words}")
    }
}
