// The refusals that name a place, as a job gives them.
ghost use Rattle.std.specs.Prelude.{◌≡◌, [], ◌≤◌, length};
ghost use Rattle.residue.specs.Chosen.{chosen};
ghost use Rattle.job.specs.Outcome.{outcome, unless};
ghost use Rattle.places.specs.Inputs.{max_words, Short, in_order, below, judge_words, no_zero, no_equal};
ghost use Rattle.places.specs.Ordered.{AllShort, ordered};

use job::{Input, Refusal};
use residue::{Field, Residue};
use words::scan;

// One input: its first word that is not below the modulus, if it has one.
fn all_in(input: Input, s: &[u32], field: Field) -> Result<(), Refusal>
    requires { length s.now ≤ max_words }
    ensures { outcome result ≡ below (chosen field) (input, s.now) }
{
    let k = crate::first_high(s, Residue::modulus(field));
    if k < s.len() {
        return Err(Refusal::Word(input, k as u32));
    }
    Ok(())
}

// The words of a call's inputs. What a call is not lent is empty. Each slice has a lifetime of its own, so that no caller has to lend them all for the same one.
#[derive(Clone, Copy)]
pub struct Inputs<'g, 't, 't2, 'block, 'z, 'y, 'r, 'opening> {
    pub g: &'g [u32],
    pub t: &'t [u32],
    pub t2: &'t2 [u32],
    pub block: &'block [u32],
    pub z: &'z [u32],
    pub y: &'y [u32],
    pub r: &'r [u32],
    pub opening: &'opening [u32],
}

impl Inputs<'_, '_, '_, '_, '_, '_, '_, '_> {
    pub const NONE: Inputs<'static, 'static, 'static, 'static, 'static, 'static, 'static, 'static> =
        Inputs {
            g: &[],
            t: &[],
            t2: &[],
            block: &[],
            z: &[],
            y: &[],
            r: &[],
            opening: &[],
        };
}

// The first word of a call that is not below the modulus.
fn first_word(lent: &Inputs, field: Field) -> Result<(), Refusal>
    requires { AllShort lent.now }
    ensures { outcome result ≡ judge_words (chosen field) (ordered lent.now) }
{
    all_in(Input::G, lent.g, field)?;
    all_in(Input::T, lent.t, field)?;
    all_in(Input::T2, lent.t2, field)?;
    all_in(Input::Block, lent.block, field)?;
    all_in(Input::Z, lent.z, field)?;
    all_in(Input::Y, lent.y, field)?;
    all_in(Input::R, lent.r, field)?;
    all_in(Input::Opening, lent.opening, field)
}

// 4. Where the flag tells that every word is below the modulus, none is looked for.
pub fn judge_words(words: bool, lent: &Inputs, field: Field) -> Result<(), Refusal>
    requires { AllShort lent.now }
    ensures { outcome result ≡ unless words (judge_words (chosen field) (ordered lent.now)) }
{
    if words {
        return Ok(());
    }
    first_word(lent, field)
}

// The first such word of a call that is lent no base row, no claim and no opening. Not taken in where it is called: the record would lie on the stack of calls
// that need none.
#[cold]
#[inline(never)]
fn first_without_row(
    t: &[u32],
    t2: &[u32],
    block: &[u32],
    z: &[u32],
    r: &[u32],
    field: Field,
) -> Result<(), Refusal>
    requires { Short [] t.now t2.now block.now z.now [] r.now [] }
    ensures { outcome result ≡ judge_words (chosen field) (in_order [] t.now t2.now block.now z.now [] r.now []) }
{
    let lent = Inputs {
        t,
        t2,
        block,
        z,
        r,
        ..Inputs::NONE
    };
    first_word(&lent, field)
}

// 4 for such a call. The flag is asked before the record is made: a small evaluation takes a quarter more time where each call makes one.
pub fn judge_without_row(
    words: bool,
    t: &[u32],
    t2: &[u32],
    block: &[u32],
    z: &[u32],
    r: &[u32],
    field: Field,
) -> Result<(), Refusal>
    requires { Short [] t.now t2.now block.now z.now [] r.now [] }
    ensures { outcome result ≡ unless words (judge_words (chosen field) (in_order [] t.now t2.now block.now z.now [] r.now [])) }
{
    if words {
        return Ok(());
    }
    first_without_row(t, t2, block, z, r, field)
}

// 5. The place is looked for only where there is one.
pub fn judge_row(g: &[u32]) -> Result<(), Refusal>
    requires { length g.now ≤ max_words }
    ensures { outcome result ≡ no_zero g.now }
{
    if scan::none_zero(g) {
        return Ok(());
    }
    let k = crate::first_zero(g);
    Err(Refusal::BaseRow(k as u32))
}

// 6. Where the flag tells that the diagonals differ in every place, none is looked for.
pub fn judge_diagonals(apart: bool, t: &[u32], t2: &[u32]) -> Result<(), Refusal>
    requires { length t.now ≤ max_words }
    ensures { outcome result ≡ unless apart (no_equal t.now t2.now) }
{
    if apart {
        return Ok(());
    }
    let k = crate::first_equal(t, t2);
    if k < t.len().min(t2.len()) {
        return Err(Refusal::Diagonals(k as u32));
    }
    Ok(())
}
