// Numbers that stand one after another in a file. A place goes in by value, and the place after what was read comes back.
#![tactic(auto)]

ghost use Rattle.std.specs.Prelude.{◌≡◌, ℕ, length};
ghost use Rattle.job.specs.Outcome.{Numbers};
ghost use Rattle.cursor.specs.Walk.{under, judged, walk, entry, listed, after};
ghost use Rattle.cursor.specs.Shown.{told};

pub use numeral::read::Entry;
use numeral::read::read_number;

pub mod write;

// Why a pass over numbers stops.
#[derive(Clone, Copy, Debug, PartialEq, Eq)]
pub enum Fault {
    Ends,
    Malformed,
    // The index of the first number that is not below the limit.
    High(usize),
}

impl From<numeral::read::Fault> for Fault {
    ghost use Rattle.std.specs.Prelude.{◌≡◌};
    ghost use Rattle.cursor.specs.Shown.{handed_on};

    ghost from_gives = { λ fault e. e ≡ handed_on fault };

    fn from(fault: numeral::read::Fault) -> Self {
        match fault {
            numeral::read::Fault::Ends => Fault::Ends,
            numeral::read::Fault::Malformed => Fault::Malformed,
        }
    }
}

// One number, judged as it is read: the place after it.
fn step(bytes: &[u8], at: usize, index: usize, limit: u32) -> Result<usize, Fault>
    ensures { (fault : ℕ → Numbers) → told fault result ≡ judged (under limit fault) index bytes.now at }
{
    let read = read_number(bytes, at)?;
    if read.value < limit {
        Ok(read.next)
    } else {
        Err(Fault::High(index))
    }
}

// First pass: n numbers from a place on, each below limit; the place after them. The first fault decides; nothing is stored. What a number that is
// too large is refused with is the caller's to say, so the contract holds of every such fault.
pub fn skim(bytes: &[u8], at: usize, n: usize, limit: u32) -> Result<usize, Fault>
    ensures { (fault : ℕ → Numbers) → told fault result ≡ walk (under limit fault) 0 n bytes.now at }
{
    let mut here = at;
    for k in 0..n {
        here = step(bytes, here, k, limit)?;
    }
    Ok(here)
}

// The number at a place; 0, and the same place, where none stands.
pub fn entry_at(bytes: &[u8], at: usize) -> Entry
    ensures { (result.value, result.next) ≡ entry bytes.now at }
{
    match read_number(bytes, at) {
        Ok(e) => e,
        Err(_) => Entry { value: 0, next: at },
    }
}

// Second pass: as many numbers as out has places, from a place on; the place after them.
pub fn fill(bytes: &[u8], at: usize, out: &mut [u32]) -> usize
    ensures { (result ≡ after (length out.old) bytes.now at) × (out.new ≡ listed (length out.old) bytes.now at) }
{
    let mut here = at;
    for i in 0..out.len() {
        let e = entry_at(bytes, here);
        out[i] = e.value;
        here = e.next;
    }
    here
}
