// Bytes compared, and bytes read as a word.
ghost use Rattle.std.specs.Prelude.{◌≡◌, ◌+◌, ◌≤◌, length};
ghost use Rattle.hash_path.specs.Same.{same_bytes};
ghost use Rattle.hash_path.specs.Word.{word_at};

// Whether two lists of bytes are equal.
pub fn same(a: &[u8], b: &[u8]) -> bool
    ensures { result ≡ same_bytes a.now b.now }
{
    a == b
}

// The word of the four bytes from a place on, the lowest first.
#[tactic(auto, unfolding(crate::specs::Word::low_word))]
pub fn word_at(bytes: &[u8], at: usize) -> u32
    requires { at + 4 ≤ length bytes.now }
    ensures { result ≡ word_at bytes.now at }
{
    u32::from_le_bytes([bytes[at], bytes[at + 1], bytes[at + 2], bytes[at + 3]])
}
