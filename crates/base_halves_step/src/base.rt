// The block of one base message, and whether it is the one that stands there.
ghost use Rattle.std.specs.Prelude.{◌≡◌, length, take};
ghost use Rattle.algebra.specs.Tests.{all_same};
ghost use Rattle.residue.specs.Chosen.{chosen};
ghost use Rattle.base_block.specs.Blocks.{block_of};
ghost use Rattle.base_halves_step.specs.Steps.{BaseLent};

use residue::Field;

// The base block of m, in the first n words: the longest has 64, of four words at the rate 16.
pub fn base_codeword(n: usize, g: &[u32], m: &[u32], field: Field) -> [u32; 64]
    requires { BaseLent (chosen field) n g.now m.now }
    ensures { (length result ≡ 64) × (take n result ≡ block_of (chosen field) n g.now m.now) }
{
    let mut words = [0u32; 64];
    base_block::base_block(n, g, m, &mut words[..n], field);
    words
}

pub fn same_words(a: &[u32], b: &[u32]) -> bool
    requires { length b.now ≡ length a.now }
    ensures { result ≡ all_same a.now b.now }
{
    let mut ok = true;
    for i in 0..a.len() {
        ok &= a[i] == b[i];
    }
    ok
}
