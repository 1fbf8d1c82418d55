// Operations on elements: a unit, an associative join, and blocks of words that stand for elements.
#![tactic(auto)]

ghost use Rattle.std.specs.Prelude.{◌≡◌, ◌≤◌};
ghost use Rattle.operation.specs.Meaning.{Meaning, Monoid, Packing, widest, written};

pub mod affine;
mod block;
pub mod fault;
pub mod least;
pub mod text;

use fault::BlockFault;

// A function of an operation answers by the operation's meaning alone, and leaves it as it was.
pub trait Operation {
    type Element: Copy;

    ghost meaning: { Self → Meaning Self.Element };

    // How many words a block has.
    fn width(&self) -> usize
        ensures { result ≡ (meaning self.now).width };

    fn unit(&self) -> Self::Element
        ensures { result ≡ (meaning self.now).unit };

    fn join(&self, x: Self::Element, y: Self::Element) -> Self::Element
        ensures { result ≡ (meaning self.now).join x y };

    // Writes the block of x to the front of the lent words, and nothing where they are too few.
    fn pack(&self, x: Self::Element, words: &mut [u32])
        ensures { words.new ≡ written ((meaning self.now).pack x) words.old };

    // The element of a block, or the refusal.
    fn unpack(&self, block: &[u32]) -> Result<Self::Element, BlockFault>
        ensures { result ≡ (meaning self.now).unpack block.now };

    ghost wide: { (o : Self) → 1 ≤ (meaning o).width };

    ghost monoid: { (o : Self) → Monoid (meaning o) };

    // Nothing is asked of the blocks of a wider operation.
    ghost packing: { (o : Self) → (meaning o).width ≤ widest → Packing (meaning o) };
}
