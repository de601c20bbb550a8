// Sizes with base blocks of n words, where v and the blocks stand in an opening, and where a query goes on.
ghost use Rattle.std.specs.Prelude.{◌≡◌, ◌+◌, ◌<◌, ◌≤◌, length, take, drop};
ghost use Rattle.basefold.specs.Checks.{next as next_place};
ghost use Rattle.basefold.specs.Layout.{final_at, block_of, opening_size};
ghost use Rattle.job.specs.Limits.{max_depth, block_size, diagonals_size};
ghost use Rattle.undo.specs.Steps.{longest_base};
ghost use Rattle.base_walks.specs.Steps.{RowSizes};

use base_spread::RowCode;

// The words of a block. This and the next function are of a level and n alone: those of `job::sizes` ask for a record of parameters within its limits.
pub fn block_len(level: u32, n: usize) -> usize
    requires { (level ≤ max_depth) × (n ≤ longest_base) }
    ensures { result ≡ block_size n level }
{
    n * job::message_len(level)
}

// The words of the diagonals of all levels below one.
pub fn diagonals_len(level: u32, n: usize) -> usize
    requires { (level ≤ max_depth) × (n ≤ longest_base) }
    ensures { result ≡ diagonals_size n level }
{
    n * (job::message_len(level) - 1)
}

// Where the block of a level below the top one begins, in an opening of `len` words: it and the blocks below it are its last n (2^(level + 1) - 1).
// Counted from the end, it asks for neither depth nor low, as `base_steps::block_at` does for who writes.
pub fn block_at(n: usize, level: u32, len: usize) -> usize
    requires { (level < max_depth) × (n ≤ longest_base) × (diagonals_size n (level + 1) ≤ len) }
    ensures { result + diagonals_size n (level + 1) ≡ len }
{
    len - diagonals_len(level + 1, n)
}

// v, as a part of the opening.
pub fn final_words(depth: u32, k: usize, opening: &[u32]) -> &[u32]
    requires { final_at depth + k ≤ length opening.now }
    ensures { result.now ≡ take k (drop (final_at depth) opening.now) }
{
    let start = layout::final_at(depth);
    let end = start + k;
    &opening[start..end]
}

// The block of a level, as a part of what is lent: that of the top level is the commitment's, every lower one lies in the opening.
pub fn level_block<'a>(
    code: &RowCode,
    depth: u32,
    level: u32,
    block: &'a [u32],
    opening: &'a [u32],
) -> &'a [u32]
    requires { (RowSizes depth code.now.low code.now.k code.now.n) × (level ≤ depth) × (length opening.now ≡ opening_size code.now.n code.now.low depth) }
    ensures { result.now ≡ block_of code.now.n code.now.low depth block.now opening.now level }
{
    if level == depth {
        return block;
    }
    let start = block_at(code.n, level, opening.len());
    let end = start + block_len(level, code.n);
    &opening[start..end]
}

// Where a query goes on below a level.
pub fn next(level: u32, n: usize, u: usize) -> usize
    requires { (level ≤ max_depth) × (n ≤ longest_base) }
    ensures { result ≡ next_place n level u }
{
    if level == 0 {
        return u;
    }
    let size = block_len(level - 1, n);
    if u >= size {
        return u - size;
    }
    u
}
