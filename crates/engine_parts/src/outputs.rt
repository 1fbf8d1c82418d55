// The blocks of elements, one after the other in lent words.
ghost use Rattle.std.specs.Prelude.{◌≡◌, ◌+◌, ◌*◌, ◌≤◌, true, length};
ghost use Rattle.engine_parts.specs.Outputs.{block_over};

use operation::Operation;

// Writes one block over those that stand at a place, counted in blocks.
pub fn write_block<O: Operation>(op: &O, value: O::Element, place: usize, words: &mut [u32])
    requires narrow { (O.meaning op.now).width ≤ 6 }
    requires proper { (O.meaning op.now).proper value ≡ true }
    requires room { (place + 1) * (O.meaning op.now).width ≤ length words.old }
    ensures { words.new ≡ block_over (O.meaning op.now) value place words.old }
{
    let start = place * op.width();
    op.pack(value, &mut words[start..]);
}
