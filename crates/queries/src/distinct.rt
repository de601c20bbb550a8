// Whether no word stands twice.
ghost use Rattle.std.specs.Prelude.{◌≡◌, length};
ghost use Rattle.queries.specs.Distinct.{absent, distinct};

// Whether no word is x. With no early exit, so that it runs as vectors.
fn absent(x: u32, s: &[u32]) -> bool
    ensures { result ≡ absent x s.now }
{
    let mut found = false;
    for w in s {
        found |= *w == x;
    }
    !found
}

// Every word leaves a mark for its remainder. One that meets a mark is compared with all before it, so what the marks were does not matter.
fn all_differ(s: &[u32], marks: &mut [bool]) -> bool
    requires { length marks.old ≡ 1024 }
    ensures { result ≡ distinct s.now }
{
    for (i, w) in s.iter().enumerate() {
        let m = (*w % 1024) as usize;
        if marks[m] && !absent(*w, &s[..i]) {
            return false;
        }
        marks[m] = true;
    }
    true
}

pub fn distinct(s: &[u32]) -> bool
    ensures { result ≡ distinct s.now }
{
    let mut marks = [false; 1024];
    all_differ(s, &mut marks)
}
