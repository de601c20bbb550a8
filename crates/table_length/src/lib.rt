// Which lengths a table may have, and the depth of one.
#![tactic(auto)]

ghost use Rattle.std.specs.Prelude.{◌≡◌, true};
ghost use Rattle.job.specs.Sizes.{sound_k};
ghost use Rattle.table_length.specs.Depth.{is_power, exponent, table_ok};

use job::{Parameters, sizes};

// One set bit makes a power of two.
#[tactic(auto, using(crate::proofs::Bits::one_bit, crate::proofs::Bits::too_large))]
fn is_power(n: usize) -> bool
    ensures { result ≡ is_power n }
{
    n <= job::message_len(job::MAX_DEPTH) && n.count_ones() == 1
}

// A k0 that is not legal counts as 1.
#[tactic(auto, unfolding(job::specs::Sizes::sound_k))]
fn sound_k0(p: Parameters) -> usize
    ensures { result ≡ sound_k p.k0 }
{
    if sizes::k0_ok(p) { p.k0 as usize } else { 1 }
}

// A table has at least the words of a base message.
#[tactic(auto, unfolding(crate::specs::Depth::table_ok))]
pub fn table_ok(p: Parameters, n: usize) -> bool
    ensures { result ≡ table_ok p.k0 n }
{
    is_power(n) && sound_k0(p) <= n
}

// The zeros below that bit are the depth.
pub fn depth_of(n: usize) -> u32
    requires { is_power n ≡ true }
    ensures { result ≡ exponent n }
{
    n.trailing_zeros()
}
