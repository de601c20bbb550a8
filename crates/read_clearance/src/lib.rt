// Reading a residue as a clearance.
#![tactic(auto)]

ghost use Rattle.std.specs.Prelude.{◌≡◌};
ghost use Rattle.residue.specs.Chosen.{chosen};
ghost use Rattle.read_clearance.specs.Reading.{reading, reading_outcome};

use job::{Input, Refusal};
use residue::{Field, Residue};

// Contact has no distance: a parcel that touches must not be passed.
#[derive(Clone, Copy, Debug, PartialEq, Eq)]
pub enum Reading {
    Free(u32),
    Contact,
    Overlap(u32),
}

// The word is the whole block, so its place is 0.
pub fn read_clearance(word: u32, field: Field) -> Result<Reading, Refusal>
    ensures { reading_outcome result ≡ reading (chosen field) word }
{
    let Some(r) = Residue::from_word(word, field) else {
        return Err(Refusal::Word(Input::Block, 0));
    };
    let w = r.word();
    if w == 0 {
        Ok(Reading::Contact)
    } else if w < Residue::half(field).word() {
        Ok(Reading::Free(w))
    } else {
        Ok(Reading::Overlap(Residue::modulus(field) - w))
    }
}
