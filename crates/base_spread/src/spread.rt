// The base blocks of a message, all times one factor.
ghost use Rattle.std.specs.Prelude.{◌≡◌};
ghost use Rattle.residue.specs.Elements.{elem, Low};
ghost use Rattle.residue.specs.Chosen.{chosen};
ghost use Rattle.base_block.specs.Blocks.{BlockLent};
ghost use Rattle.base_spread.specs.Steps.{SpreadLent, block_by, blocks_by};

use code::spread;
use residue::{Field, Residue};

// The words of the base message take the factor: they are fewer than those of the block.
fn scaled_block(n: usize, g: &[u32], m: &[u32], out: &mut [u32], f: Residue, field: Field)
    requires { BlockLent (chosen field) n g.now m.now out.old × Low (chosen field) f }
    ensures { out.new ≡ block_by (chosen field) (elem (chosen field) f) n g.now m.now }
{
    let k = m.len();
    let mut words = [0u32; 4];
    spread::scale(f, m, &mut words[..k], field);
    base_block::base_block(n, g, &words[..k], out, field);
}

// Each k words of the message become n words of out.
pub fn spread_blocks(
    k: usize,
    n: usize,
    g: &[u32],
    message: &[u32],
    out: &mut [u32],
    f: Residue,
    field: Field,
)
    requires { SpreadLent (chosen field) k n g.now message.now out.old × Low (chosen field) f }
    ensures { out.new ≡ blocks_by (chosen field) (elem (chosen field) f) k n g.now message.now }
{
    let mut b = 0;
    for i in (0..message.len()).step_by(k) {
        let e = i + k;
        let l = b + n;
        scaled_block(n, g, &message[i..e], &mut out[b..l], f, field);
        b = l;
    }
}
