// The rounds of a block (6.2.2, steps 3 and 4).
ghost use Rattle.std.specs.Prelude.{◌≡◌, get_or};
ghost use Rattle.sha256_block.specs.Compression.{T₁, T₂, round, rounds, added};

use crate::State;
use crate::constants::K;
use sha256_words as words;

fn first(s: State, k: u32, w: u32) -> u32
    ensures { result ≡ T₁ s k w }
{
    words::sum5(s.h, words::big_sigma1(s.e), words::ch(s.e, s.f, s.g), k, w)
}

fn second(s: State) -> u32
    ensures { result ≡ T₂ s }
{
    words::plus(words::big_sigma0(s.a), words::maj(s.a, s.b, s.c))
}

#[tactic(auto, unfolding(crate::specs::Compression::round))]
fn round(s: State, k: u32, w: u32) -> State
    ensures { result ≡ round s k w }
{
    let x = first(s, k, w);
    let y = second(s);
    State {
        a: words::plus(x, y),
        b: s.a,
        c: s.b,
        d: s.c,
        e: words::plus(s.d, x),
        f: s.e,
        g: s.f,
        h: s.g,
    }
}

pub fn rounds(s: State, w: &[u32; 64]) -> State
    ensures { result ≡ rounds (λ t. get_or w.now t 0) s 64 }
{
    // A constant that is indexed in a loop is copied at every turn; a local is not. Two rounds a turn run a little faster than one.
    let k = K;
    let mut r = s;
    for i in 0..32 {
        let t = 2 * i;
        r = round(r, k[t], w[t]);
        r = round(r, k[t + 1], w[t + 1]);
    }
    r
}

#[tactic(auto, unfolding(crate::specs::Compression::added))]
pub fn added(r: State, s: State) -> State
    ensures { result ≡ added r s }
{
    State {
        a: words::plus(r.a, s.a),
        b: words::plus(r.b, s.b),
        c: words::plus(r.c, s.c),
        d: words::plus(r.d, s.d),
        e: words::plus(r.e, s.e),
        f: words::plus(r.f, s.f),
        g: words::plus(r.g, s.g),
        h: words::plus(r.h, s.h),
    }
}
