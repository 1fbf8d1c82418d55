// Maps y → a × y + b modulo m. The join does the left map first.
ghost use Rattle.std.specs.Prelude.{◌≡◌, ◌≤◌, Ok, Err, MatchResult};
ghost use Rattle.operation.specs.Affine.{affine as affine_meaning, accepted_modulus};
ghost use Rattle.operation.specs.AffineLaws.{affine_monoid, affine_packing};
ghost use Rattle.std.proofs.Common.{rules, arith};

use super::Operation;
use super::block::{check_below, words_of, write_front};
use super::fault::{BlockFault, ModulusFault};

// The map y → a × y + b.
#[derive(Clone, Copy, PartialEq, Eq, Debug)]
pub struct AffineElement {
    pub a: u32,
    pub b: u32,
}

const WIDTH: usize = 2;

const MIN_MODULUS: u32 = 2;

const MAX_MODULUS: u32 = 2_147_483_647;

// The operation on maps modulo `modulus`, which lies in its range.
#[derive(Clone, Copy, Debug)]
pub struct Affine {
    modulus: u32,
    ghost ok: { (2 ≤ modulus) × (modulus ≤ 2147483647) },
}

impl Affine {
    pub fn new(modulus: u32) -> Result<Affine, ModulusFault>
        ensures { MatchResult result (λ o. accepted_modulus modulus ≡ Ok o.modulus) (λ e. accepted_modulus modulus ≡ Err e) }
    {
        if !(MIN_MODULUS..=MAX_MODULUS).contains(&modulus) {
            return Err(ModulusFault::OutOfRange);
        }
        Ok(Affine { modulus })
    }

    pub fn modulus(&self) -> u32
        ensures { result ≡ self.now.modulus }
    {
        self.modulus
    }
}

impl Operation for Affine {
    type Element = AffineElement;

    ghost meaning = { λ o. affine_meaning o.modulus };

    ghost wide = { Prim.search rules };

    ghost monoid = { λ o. affine_monoid o.modulus o.ok.0 o.ok.1 };

    ghost packing = { λ o narrow. affine_packing o.modulus o.ok.0 o.ok.1 };

    fn width(&self) -> usize {
        WIDTH
    }

    fn unit(&self) -> AffineElement {
        AffineElement { a: 1, b: 0 }
    }

    fn join(&self, x: AffineElement, y: AffineElement) -> AffineElement {
        let m = u64::from(self.modulus);
        let a = u64::from(y.a) * u64::from(x.a) % m;
        let b = (u64::from(y.a) * u64::from(x.b) + u64::from(y.b)) % m;
        AffineElement {
            a: a as u32,
            b: b as u32,
        }
    }

    fn pack(&self, x: AffineElement, words: &mut [u32]) {
        write_front(&[x.a, x.b], words);
    }

    fn unpack(&self, block: &[u32]) -> Result<AffineElement, BlockFault> {
        let [a, b] = words_of::<WIDTH>(block)?;
        check_below(self.modulus, block)?;
        Ok(AffineElement { a, b })
    }
}
