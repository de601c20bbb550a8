// Words of 32 bits as SHA-256 uses them (FIPS 180-4): sums, rotations, the six functions of 4.1.2, and the word of four bytes.
#![tactic(auto)]

ghost use Rattle.std.specs.Prelude.{◌≡◌, ◌+◌, ◌<◌, ◌≤◌, length};
ghost use Rattle.sha256_words.specs.Words.{◌⊞◌, ROTR, Ch, Maj, Σ0, Σ1, σ0, σ1, word_at};

// Addition modulo 2^32.
pub fn plus(x: u32, y: u32) -> u32
    ensures { result ≡ x ⊞ y }
{
    x.wrapping_add(y)
}

#[tactic(auto, unfolding(crate::specs::Words::ROTR))]
pub fn rotr(n: u32, x: u32) -> u32
    requires { (0 < n) × (n < 32) }
    ensures { result ≡ ROTR n x }
{
    x.rotate_right(n)
}

#[tactic(auto, unfolding(crate::specs::Words::Ch, crate::specs::Words::complement))]
pub fn ch(x: u32, y: u32, z: u32) -> u32
    ensures { result ≡ Ch x y z }
{
    x & y ^ !x & z
}

#[tactic(auto, unfolding(crate::specs::Words::Maj))]
pub fn maj(x: u32, y: u32, z: u32) -> u32
    ensures { result ≡ Maj x y z }
{
    x & y ^ x & z ^ y & z
}

pub fn big_sigma0(x: u32) -> u32
    ensures { result ≡ Σ0 x }
{
    rotr(2, x) ^ rotr(13, x) ^ rotr(22, x)
}

pub fn big_sigma1(x: u32) -> u32
    ensures { result ≡ Σ1 x }
{
    rotr(6, x) ^ rotr(11, x) ^ rotr(25, x)
}

pub fn small_sigma0(x: u32) -> u32
    ensures { result ≡ σ0 x }
{
    rotr(7, x) ^ rotr(18, x) ^ x >> 3
}

pub fn small_sigma1(x: u32) -> u32
    ensures { result ≡ σ1 x }
{
    rotr(17, x) ^ rotr(19, x) ^ x >> 10
}

// Sums of four and of five words.
pub fn sum4(x: u32, y: u32, z: u32, u: u32) -> u32
    ensures { result ≡ x ⊞ y ⊞ z ⊞ u }
{
    x.wrapping_add(y).wrapping_add(z).wrapping_add(u)
}

pub fn sum5(x: u32, y: u32, z: u32, u: u32, v: u32) -> u32
    ensures { result ≡ x ⊞ y ⊞ z ⊞ u ⊞ v }
{
    x.wrapping_add(y)
        .wrapping_add(z)
        .wrapping_add(u)
        .wrapping_add(v)
}

// The word at a place, the highest byte first.
#[tactic(auto, unfolding(crate::specs::Words::word_at))]
pub fn word_at(b: &[u8], i: usize) -> u32
    requires { i + 4 ≤ length b.now }
    ensures { result ≡ word_at b.now i }
{
    u32::from_be_bytes([b[i], b[i + 1], b[i + 2], b[i + 3]])
}
