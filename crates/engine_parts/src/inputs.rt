// The elements of consecutive blocks, one for each rank.
ghost use Rattle.std.specs.Prelude.{◌≡◌, ◌+◌, ◌*◌, ◌<◌, ◌≤◌, length};
ghost use Rattle.ranks.specs.Ranks.{most_ranks};
ghost use Rattle.engine_parts.specs.Inputs.{block_at, at_rank, blocks_read, inputs_of, padded};

use operation::Operation;
use operation::fault::BlockFault;
use ranks::MAX_RANKS;

// The first block that is refused: its rank, and the operation's own refusal.
#[derive(Clone, Copy, PartialEq, Eq, Debug)]
pub struct BadBlock {
    pub rank: usize,
    pub fault: BlockFault,
}

// The element of one rank's block.
fn read_block<O: Operation>(op: &O, words: &[u32], rank: usize) -> Result<O::Element, BadBlock>
    requires { (rank + 1) * (O.meaning op.now).width ≤ length words.now }
    ensures { result ≡ at_rank rank ((O.meaning op.now).unpack (block_at (O.meaning op.now).width rank words.now)) }
{
    let width = op.width();
    let start = rank * width;
    op.unpack(&words[start..start + width])
        .map_err(|fault| BadBlock { rank, fault })
}

// The elements of all ranks' blocks, with units behind them.
pub fn read_inputs<O: Operation>(
    op: &O,
    words: &[u32],
    ranks: usize,
) -> Result<[O::Element; MAX_RANKS], BadBlock>
    requires few { ranks ≤ most_ranks }
    requires full { length words.now ≡ ranks * (O.meaning op.now).width }
    ensures { result ≡ padded (O.meaning op.now) ranks (inputs_of 0 (blocks_read (O.meaning op.now) ranks words.now)) }
{
    let unit = op.unit();
    let mut inputs = [unit; MAX_RANKS];
    for rank in 0..ranks {
        inputs[rank] = read_block(op, words, rank)?;
    }
    Ok(inputs)
}
