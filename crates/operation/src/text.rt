// Bytes, lines and words of a text, counted in parts that can be joined.
ghost use Rattle.std.specs.Prelude.{◌≡◌, [], ◌∷◌, None, Some, fold};
ghost use Rattle.operation.specs.Text.{text as text_meaning, measured, in_word, counts_join, text_join, edge_of, MeasureJoins};
ghost use Rattle.operation.specs.Runs.{WordsAreRuns};
ghost use Rattle.operation.specs.TextLaws.{text_monoid, text_packing};
ghost use Rattle.std.proofs.Common.{rules};

use super::Operation;
use super::block::{check_below, words_of, write_front};
use super::fault::BlockFault;

// The counts of a text that is not empty, modulo 2^32.
#[derive(Clone, Copy, PartialEq, Eq, Debug)]
pub struct Counts {
    pub bytes: u32,
    pub lines: u32,
    pub words: u32,
    // Whether the first byte is part of a word.
    pub left: bool,
    // Whether the last byte is part of a word.
    pub right: bool,
}

impl Counts {
    // The counts of two texts, one after the other. A word that goes on counts once.
    fn followed_by(self, next: Counts) -> Counts
        ensures { result ≡ counts_join self next }
    {
        let lost = u32::from(self.right && next.left);
        Counts {
            bytes: self.bytes.wrapping_add(next.bytes),
            lines: self.lines.wrapping_add(next.lines),
            words: self.words.wrapping_add(next.words).wrapping_sub(lost),
            left: self.left,
            right: next.right,
        }
    }

    // The last word of a block.
    fn edge(self) -> u32
        ensures { result ≡ edge_of self }
    {
        4 + 2 * u32::from(self.left) + u32::from(self.right)
    }
}

const WIDTH: usize = 4;

#[derive(Clone, Copy, Debug)]
pub struct Text;

impl Text {
    // The element of a text. The element of two texts, one after the other, is the join of their elements.
    pub fn measure(bytes: &[u8]) -> Option<Counts>
        ensures value { result ≡ measured bytes.now }
        ensures joins { MeasureJoins }
        ensures words_are_runs { WordsAreRuns }
    {
        join_bytes(bytes)
    }
}

// The join of the elements of single bytes.
fn join_bytes(bytes: &[u8]) -> Option<Counts>
    ensures { result ≡ fold (λ sum byte. text_join sum (measured (byte ∷ []))) None bytes.now }
{
    let (first, rest) = bytes.split_first()?;
    Some(
        rest.iter().fold(
            counts_of(*first),
            |sum, byte| sum.followed_by(counts_of(*byte)),
        ),
    )
}

// The counts of a text of one byte.
fn counts_of(byte: u8) -> Counts
    ensures { Some result ≡ measured (byte ∷ []) }
{
    let inside = is_in_word(byte);
    Counts {
        bytes: 1,
        lines: u32::from(byte == 10),
        words: u32::from(inside),
        left: inside,
        right: inside,
    }
}

// Whether a byte is part of a word, as all but spaces are. By comparisons alone, so that a text is measured without branches.
fn is_in_word(byte: u8) -> bool
    ensures { result ≡ in_word byte }
{
    byte != 32 && !(9..=13).contains(&byte)
}

impl Operation for Text {
    type Element = Option<Counts>;

    ghost meaning = { λ _. text_meaning };

    ghost wide = { Prim.search rules };

    ghost monoid = { λ o. text_monoid };

    ghost packing = { λ o narrow. text_packing };

    fn width(&self) -> usize {
        WIDTH
    }

    fn unit(&self) -> Option<Counts> {
        None
    }

    fn join(&self, x: Option<Counts>, y: Option<Counts>) -> Option<Counts> {
        match (x, y) {
            (Some(left), Some(right)) => Some(left.followed_by(right)),
            _ => x.or(y),
        }
    }

    fn pack(&self, x: Option<Counts>, words: &mut [u32]) {
        match x {
            Some(c) => write_front(&[c.bytes, c.lines, c.words, c.edge()], words),
            None => write_front(&[0; WIDTH], words),
        }
    }

    fn unpack(&self, block: &[u32]) -> Result<Option<Counts>, BlockFault> {
        let [bytes, lines, words, edge] = words_of::<WIDTH>(block)?;
        match edge {
            // The words of an empty text are zeros.
            0 => {
                check_below(1, block)?;
                Ok(None)
            }
            4..=7 => Ok(Some(Counts {
                bytes,
                lines,
                words,
                left: edge / 2 % 2 == 1,
                right: edge % 2 == 1,
            })),
            _ => Err(BlockFault::WrongWord(3)),
        }
    }
}
