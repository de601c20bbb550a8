// The words that stand at the same place of several columns, side by side.
ghost use Rattle.std.specs.Prelude.{◌≡◌, ◌++◌, ◌+◌, ◌*◌, get_or, take, drop};
ghost use Rattle.algebra.specs.Lists.{row};
ghost use Rattle.base_undo.specs.Steps.{DrawLent, GroupsLent, grouped, column_word};

// k words that stand q apart, from r on, to the front. None is overwritten before it is read: word b comes from a place not before b.
fn gather_strided(k: usize, r: usize, q: usize, w: &mut [u32])
    requires { DrawLent k r q w.old }
    ensures { w.new ≡ row k (λ b. get_or w.old (r + b * q) 0) ++ drop k w.old }
{
    let mut p = r;
    for b in 0..k {
        w[b] = w[p];
        p += q;
    }
}

// The k columns of q words that stand from (k - 1) q on, as q groups of k words in front. Group j ends with or before word j of the first column, so no
// word is overwritten before it is read.
fn transpose_columns(k: usize, q: usize, w: &mut [u32])
    requires { GroupsLent k q w.old }
    ensures { take (k * q) w.new ≡ grouped k q (column_word k q w.old) }
{
    for j in 0..q {
        let i = k * j;
        let r = (k - 1) * (q - j);
        gather_strided(k, r, q, &mut w[i..]);
    }
}

// One column is its own groups.
pub fn transpose(k: usize, q: usize, w: &mut [u32])
    requires { GroupsLent k q w.old }
    ensures { take (k * q) w.new ≡ grouped k q (column_word k q w.old) }
{
    if k != 1 {
        transpose_columns(k, q, w);
    }
}
