// The first place where a test fails of numbers that still stand in a file, for refusals that are judged after the last byte was read.
#![tactic(auto)]

ghost use Rattle.std.specs.Prelude.{◌≡◌};
ghost use Rattle.places.specs.Places.{zero_place, equal_place};
ghost use Rattle.cursor.specs.Walk.{listed};

use cursor::entry_at;

// The first of the n numbers from a place on that is 0; n where none is.
pub fn first_zero(bytes: &[u8], at: usize, n: usize) -> usize
    ensures { result ≡ zero_place (listed n bytes.now at) }
{
    let mut here = at;
    for i in 0..n {
        let e = entry_at(bytes, here);
        if e.value == 0 {
            return i;
        }
        here = e.next;
    }
    n
}

// The first index at which the n numbers from place a on and the n from place b on are equal; n where none is. Two cursors walk the file.
pub fn first_equal(bytes: &[u8], a: usize, b: usize, n: usize) -> usize
    ensures { result ≡ equal_place (listed n bytes.now a) (listed n bytes.now b) }
{
    let mut here = a;
    let mut there = b;
    for j in 0..n {
        let e = entry_at(bytes, here);
        let f = entry_at(bytes, there);
        if e.value == f.value {
            return j;
        }
        here = e.next;
        there = f.next;
    }
    n
}
