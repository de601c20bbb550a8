// Bytes stored in a buffer.
ghost use Rattle.std.specs.Prelude.{◌≡◌, ◌+◌, ◌≤◌, ◌++◌, length, take, drop};
ghost use Rattle.sha256.specs.Padding.{bytes};

// A word's bytes at a place, the highest first.
#[tactic(auto, unfolding(crate::specs::Padding::bytes))]
pub fn put_word(x: u32, out: &mut [u8], i: usize)
    requires { i + 4 ≤ length out.old }
    ensures { out.new ≡ take i out.old ++ bytes x ++ drop (i + 4) out.old }
{
    out[i..i + 4].copy_from_slice(&x.to_be_bytes());
}
