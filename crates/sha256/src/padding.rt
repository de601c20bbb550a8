// The blocks of a padded message (5.1.1 and 5.2.1): those that lie in the message are hashed where they are, the last one or two in a buffer.
ghost use Rattle.std.specs.Prelude.{◌≡◌, ◌+◌, ◌-◌, ◌*◌, ◌/◌, ◌<◌, ◌≤◌, ◌∷◌, ◌++◌, length, take, drop, replicate};
ghost use Rattle.sha256.specs.Padding.{all_bytes, length_words, padded};
ghost use Rattle.sha256.specs.Hash.{hashed};

use sha256_block::State;

// The hash value after the blocks that lie in the message.
pub fn whole_blocks(m: &[u8]) -> State
    ensures { result ≡ hashed (padded m.now) (length m.now / 64) }
{
    let mut s = sha256_block::initial();
    let n = m.len() / 64;
    for i in 0..n {
        s = sha256_block::compress(s, &m[64 * i..64 * i + 64]);
    }
    s
}

// What is left of a message, the byte 0x80, and zeros.
fn begun(rest: &[u8]) -> [u8; 128]
    requires { length rest.now < 64 }
    ensures { result ≡ rest.now ++ (0x80 ∷ replicate (127 - length rest.now) 0) }
{
    let mut out = [0u8; 128];
    out[..rest.len()].copy_from_slice(rest);
    out[rest.len()] = 0x80;
    out
}

// The length in bits of a message of n bytes, of which the low 64 bits count, in the eight bytes from a place on.
fn with_length(block: [u8; 128], at: usize, n: usize) -> [u8; 128]
    requires { at + 8 ≤ 128 }
    ensures { result ≡ take at block ++ all_bytes (length_words (8 * n)) ++ drop (at + 8) block }
{
    let mut b = block;
    b[at..at + 8].copy_from_slice(&n.wrapping_mul(8).to_be_bytes());
    b
}

// The hash value after the last block or two: a rest of 56 bytes or more leaves no room for the length.
pub fn last_blocks(m: &[u8], s: State) -> State
    requires { s ≡ hashed (padded m.now) (length m.now / 64) }
    ensures { result ≡ hashed (padded m.now) (length (padded m.now) / 64) }
{
    let n = m.len();
    let at = n - n % 64;
    let b = begun(&m[at..]);
    if n % 64 < 56 {
        let c = with_length(b, 56, n);
        return sha256_block::compress(s, &c[0..64]);
    }
    let c = with_length(b, 120, n);
    let t = sha256_block::compress(s, &c[0..64]);
    sha256_block::compress(t, &c[64..])
}
