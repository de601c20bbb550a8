// SHA-256 of one block (FIPS 180-4): the hash value after it from the hash value before.
#![tactic(auto)]

ghost use Rattle.std.specs.Prelude.{◌≡◌, length};
ghost use Rattle.sha256_block.specs.Constants.{H₀};
ghost use Rattle.sha256_block.specs.Compression.{compressed};

mod constants;
mod rounds;
mod schedule;

// Eight words: the working variables, or a hash value.
#[derive(Clone, Copy, Debug, PartialEq, Eq)]
pub struct State {
    pub a: u32,
    pub b: u32,
    pub c: u32,
    pub d: u32,
    pub e: u32,
    pub f: u32,
    pub g: u32,
    pub h: u32,
}

pub fn initial() -> State
    ensures { result ≡ H₀ }
{
    State {
        a: 0x6a09e667,
        b: 0xbb67ae85,
        c: 0x3c6ef372,
        d: 0xa54ff53a,
        e: 0x510e527f,
        f: 0x9b05688c,
        g: 0x1f83d9ab,
        h: 0x5be0cd19,
    }
}

// The hash value after one block more.
pub fn compress(s: State, b: &[u8]) -> State
    requires { length b.now ≡ 64 }
    ensures { result ≡ compressed s b.now }
{
    let w = schedule::schedule(b);
    rounds::added(rounds::rounds(s, &w), s)
}
