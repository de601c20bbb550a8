// One column of a block.
ghost use Rattle.std.specs.Prelude.{◌≡◌, ◌+◌, ◌*◌, ◌<◌, ◌≤◌, length};
ghost use Rattle.foldable.specs.Every.{every};
ghost use Rattle.job.specs.Limits.{max_block};

// Every c-th word, from the first on. The block may begin inside a base block, at the column that is wanted.
pub fn gather(c: usize, block: &[u32], out: &mut [u32])
    requires { (0 < c) × (c ≤ max_block) × (c * length out.old < length block.now + c) }
    ensures { out.new ≡ every 0 c 0 (length out.old) block.now }
{
    let mut p = 0;
    for i in 0..out.len() {
        out[i] = block[p];
        p += c;
    }
}
