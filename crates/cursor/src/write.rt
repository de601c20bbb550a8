// Writing numbers one after another.
ghost use Rattle.std.specs.Prelude.{◌≡◌, ◌+◌, ◌≤◌, length};
ghost use Rattle.algebra.specs.Lists.{put};
ghost use Rattle.cursor.specs.Numerals.{all_bytes};

// How many bytes words take, written one after another.
pub fn size_all(words: &[u32]) -> usize
    ensures { result ≡ length (all_bytes words.now) }
{
    let mut total = 0;
    for w in words {
        total += numeral::write::size(*w);
    }
    total
}

// Words from a place on, and the place after them.
pub fn write_all(words: &[u32], out: &mut [u8], at: usize) -> usize
    requires { at + length (all_bytes words.now) ≤ length out.old }
    ensures { (result ≡ at + length (all_bytes words.now)) × (out.new ≡ put at (all_bytes words.now) out.old) }
{
    let mut here = at;
    for word in words {
        here = numeral::write::write_number(*word, out, here);
    }
    here
}
