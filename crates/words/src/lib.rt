// Slices of words: arithmetic on their entries, tests of them, and whole slices written.
#![tactic(auto)]

ghost use Rattle.std.specs.Prelude.{◌≡◌, length, replicate};

pub mod entry;
pub mod scan;

// Zeros everywhere.
pub fn clear(s: &mut [u32])
    ensures { s.new ≡ replicate (length s.old) 0 }
{
    s.fill(0);
}

// The words of s, in t. A loop, since `copy_from_slice` would call memmove, which the static library has no need of otherwise.
pub fn copy(s: &[u32], t: &mut [u32])
    requires { length t.old ≡ length s.now }
    ensures { t.new ≡ s.now }
{
    for i in 0..s.len() {
        t[i] = s[i];
    }
}
