// The sizes that the parameter record gives, and its limits.
ghost use Rattle.std.specs.Prelude.{◌≡◌, true, ◌≤◌};
ghost use Rattle.job.specs.Limits.{block_size, diagonals_size};
ghost use Rattle.job.specs.Sizes.{k0_ok, depth_ok, size_ok, in_limits, base_size, message_size, matrix_size, low, point_size, opening_size};

use crate::Parameters;

#[tactic(auto, unfolding(crate::specs::Sizes::k0_ok))]
pub fn k0_ok(p: Parameters) -> bool
    ensures { result ≡ k0_ok p.k0 }
{
    matches!(p.k0, 1 | 2 | 4)
}

// The variables inside the base message; none where k0 is not legal.
#[tactic(auto, unfolding(crate::specs::Sizes::low))]
pub fn low_len(p: Parameters) -> usize
    ensures { result ≡ low p.k0 }
{
    match p.k0 {
        4 => 2,
        2 => 1,
        _ => 0,
    }
}

// The words of a point: a variable for each level, and the low ones.
pub fn point_len(p: Parameters) -> usize
    ensures { result ≡ point_size p.depth p.k0 }
{
    (p.depth as usize) + low_len(p)
}

// A message has 2^n words where a point has n.
pub fn depth_ok(p: Parameters) -> bool
    ensures { result ≡ depth_ok p.k0 p.depth }
{
    point_len(p) <= crate::MAX_DEPTH as usize
}

// Of a job that has no rate.
pub fn size_ok(p: Parameters) -> bool
    ensures { result ≡ size_ok p.depth p.k0 }
{
    depth_ok(p) && k0_ok(p)
}

pub fn in_limits(p: Parameters) -> bool
    ensures { result ≡ in_limits p.depth p.rate p.k0 }
{
    depth_ok(p) && crate::rate_ok(p.rate) && k0_ok(p)
}

// k0 2^depth, the words of a message.
pub fn message_len(p: Parameters) -> usize
    requires { size_ok p.depth p.k0 ≡ true }
    ensures { result ≡ message_size p.depth p.k0 }
{
    (p.k0 as usize) * crate::message_len(p.depth)
}

// The words of a base block.
pub fn base_len(p: Parameters) -> usize
    requires { in_limits p.depth p.rate p.k0 ≡ true }
    ensures { result ≡ base_size p.rate p.k0 }
{
    (p.rate as usize) * (p.k0 as usize)
}

// The words of a block.
pub fn block_len(p: Parameters, level: u32) -> usize
    requires { (in_limits p.depth p.rate p.k0 ≡ true) × (level ≤ p.depth) }
    ensures { result ≡ block_size (base_size p.rate p.k0) level }
{
    base_len(p) * crate::message_len(level)
}

// The words of the diagonals of all levels below one.
pub fn diagonals_len(p: Parameters, level: u32) -> usize
    requires { (in_limits p.depth p.rate p.k0 ≡ true) × (level ≤ p.depth) }
    ensures { result ≡ diagonals_size (base_size p.rate p.k0) level }
{
    base_len(p) * (crate::message_len(level) - 1)
}

// The words of the base matrix.
pub fn row_len(p: Parameters) -> usize
    requires { in_limits p.depth p.rate p.k0 ≡ true }
    ensures { result ≡ matrix_size p.rate p.k0 }
{
    (p.k0 as usize) * base_len(p)
}

// The words of an opening.
pub fn opening_len(p: Parameters) -> usize
    requires { in_limits p.depth p.rate p.k0 ≡ true }
    ensures { result ≡ opening_size p.depth p.rate p.k0 }
{
    3 * (p.depth as usize) + (p.k0 as usize) + diagonals_len(p, p.depth)
}
