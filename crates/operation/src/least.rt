// The least of signed values, with the place where it stands; of equal values the smaller place.
ghost use Rattle.std.specs.Prelude.{◌≡◌};
ghost use Rattle.operation.specs.Least.{least as least_meaning, biased, unbiased};
ghost use Rattle.operation.specs.LeastLaws.{least_monoid, least_packing};
ghost use Rattle.std.proofs.Common.{rules};

use super::Operation;
use super::block::{check_below, words_of, write_front};
use super::fault::BlockFault;

// A value and the place where it stands. The smaller value comes first, of equal values the smaller place.
#[derive(Clone, Copy, PartialEq, Eq, PartialOrd, Ord, Debug)]
pub struct Placed {
    pub value: i32,
    pub place: u32,
}

const WIDTH: usize = 3;

// A value as a word: how far it lies above the least one.
fn to_word(value: i32) -> u32
    ensures { result ≡ biased value }
{
    value.abs_diff(i32::MIN)
}

fn from_word(word: u32) -> i32
    ensures { result ≡ unbiased word }
{
    i32::MIN.wrapping_add_unsigned(word)
}

#[derive(Clone, Copy, Debug)]
pub struct Least;

impl Operation for Least {
    type Element = Option<Placed>;

    ghost meaning = { λ _. least_meaning };

    ghost wide = { Prim.search rules };

    ghost monoid = { λ o. least_monoid };

    ghost packing = { λ o narrow. least_packing };

    fn width(&self) -> usize {
        WIDTH
    }

    fn unit(&self) -> Option<Placed> {
        None
    }

    fn join(&self, x: Option<Placed>, y: Option<Placed>) -> Option<Placed> {
        match (x, y) {
            (Some(left), Some(right)) => Some(left.min(right)),
            _ => x.or(y),
        }
    }

    fn pack(&self, x: Option<Placed>, words: &mut [u32]) {
        match x {
            Some(p) => write_front(&[1, to_word(p.value), p.place], words),
            None => write_front(&[0; WIDTH], words),
        }
    }

    fn unpack(&self, block: &[u32]) -> Result<Option<Placed>, BlockFault> {
        let [mark, value, place] = words_of::<WIDTH>(block)?;
        match mark {
            // The words of no value are zeros.
            0 => {
                check_below(1, block)?;
                Ok(None)
            }
            1 => Ok(Some(Placed {
                value: from_word(value),
                place,
            })),
            _ => Err(BlockFault::WrongWord(0)),
        }
    }
}
