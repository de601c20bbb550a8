// The message schedule of a block (6.2.2, step 1).
ghost use Rattle.std.specs.Prelude.{◌≡◌, ◌<◌, ◌≤◌, length, get_or, replicate};
ghost use Rattle.algebra.specs.Lists.{row};
ghost use Rattle.algebra.specs.Filling.{Filled};
ghost use Rattle.sha256_block.specs.Compression.{next, W};

use sha256_words as words;

// A word from those before it.
#[tactic(auto, unfolding(crate::specs::Compression::next))]
fn next_word(w: &[u32; 64], t: usize) -> u32
    requires { (16 ≤ t) × (t < 64) }
    ensures { result ≡ next (λ j. get_or w.now j 0) t }
{
    let x = words::small_sigma1(w[t - 2]);
    let y = words::small_sigma0(w[t - 15]);
    words::sum4(x, w[t - 7], y, w[t - 16])
}

// The block's own words, and room for the others.
fn loaded(b: &[u8]) -> [u32; 64]
    requires { length b.now ≡ 64 }
    ensures { Filled 16 (row 64 (W b.now)) (replicate 64 0) result }
{
    let mut w = [0u32; 64];
    for t in 0..16 {
        w[t] = words::word_at(b, 4 * t);
    }
    w
}

pub fn schedule(b: &[u8]) -> [u32; 64]
    requires { length b.now ≡ 64 }
    ensures { result ≡ row 64 (W b.now) }
{
    let mut w = loaded(b);
    for t in 16..64 {
        w[t] = next_word(&w, t);
    }
    w
}
