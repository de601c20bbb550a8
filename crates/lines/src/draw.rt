// The straight lines at the challenge, from loose words that stand for the inverses of T' - T.
ghost use Rattle.std.specs.Prelude.{◌≡◌, ◌+◌, ◌<◌, length};
ghost use Rattle.algebra.specs.Lists.{row};
ghost use Rattle.algebra.specs.Words.{𝔽₁, 𝔽₂};
ghost use Rattle.algebra.specs.WordLists.{to_words};
ghost use Rattle.residue.specs.Elements.{P, el, elem, word, Low};
ghost use Rattle.residue.specs.Chosen.{chosen};
ghost use Rattle.residue.specs.Scale.{room};
ghost use Rattle.residue.specs.declared.Field.TheVariants.{Second};
ghost use Rattle.lines.specs.Steps.{line_by, unscaled, lines_by, LinesLent, PlaceLent};

use residue::{Field, Residue};

// The value at a of the line through (t, u) and (t', v), where s is the inverse of t' - t.
fn first_line(a: Residue, t: Residue, s: u32, u: Residue, v: Residue) -> Residue
    requires { Low 𝔽₁ a × Low 𝔽₁ t × (s < P 𝔽₁) × Low 𝔽₁ u × Low 𝔽₁ v }
    ensures { result.0 ≡ word 𝔽₁ (line_by 𝔽₁ (elem 𝔽₁ a) (elem 𝔽₁ t) (el 𝔽₁ s) (elem 𝔽₁ u) (elem 𝔽₁ v)) }
{
    let slope = Residue::new(s, Field::First).times(v.difference(u, Field::First), Field::First);
    u.plus_product(a.difference(t, Field::First), slope, Field::First)
}

// Each of the two products divides by 2^32: s is that inverse times 2^64.
fn second_line(a: Residue, t: Residue, s: u32, u: Residue, v: Residue) -> Residue
    requires { Low 𝔽₂ a × Low 𝔽₂ t × (s < room Second) × Low 𝔽₂ u × Low 𝔽₂ v }
    ensures { result.0 ≡ word 𝔽₂ (line_by 𝔽₂ (elem 𝔽₂ a) (elem 𝔽₂ t) (unscaled Second s) (elem 𝔽₂ u) (elem 𝔽₂ v)) }
{
    let slope = Residue::times_loose(s, v.difference(u, Field::Second), Field::Second);
    let rise = Residue::times_loose(slope, a.difference(t, Field::Second), Field::Second);
    u.plus(Residue::settled(rise, Field::Second), Field::Second)
}

// The same over either field, of a loose word.
pub fn line(a: Residue, t: Residue, s: u32, u: Residue, v: Residue, field: Field) -> Residue
    requires { Low (chosen field) a × Low (chosen field) t × (s < room field) × Low (chosen field) u × Low (chosen field) v }
    ensures { result.0 ≡ word (chosen field) (line_by (chosen field) (elem (chosen field) a) (elem (chosen field) t) (unscaled field s) (elem (chosen field) u) (elem (chosen field) v)) }
{
    match field {
        Field::First => first_line(a, t, s, u, v),
        Field::Second => second_line(a, t, s, u, v),
    }
}

// The line of place j, where out still holds the inverse.
fn line_at(a: Residue, t: &[u32], block: &[u32], out: &[u32], j: usize, field: Field) -> Residue
    requires { Low (chosen field) a × PlaceLent field j t.now block.now out.now }
    ensures { result.0 ≡ word (chosen field) (lines_by field (length out.now) (elem (chosen field) a) t.now block.now out.now j) }
{
    let u = Residue::new(block[j], field);
    let v = Residue::new(block[out.len() + j], field);
    line(a, Residue::new(t[j], field), out[j], u, v, field)
}

// Each inverse in out gives way to its line's value.
pub fn draw(t: &[u32], block: &[u32], challenge: Residue, out: &mut [u32], field: Field)
    requires { Low (chosen field) challenge × LinesLent field t.now block.now out.old }
    ensures { out.new ≡ to_words (chosen field) (row (length out.old) (lines_by field (length out.old) (elem (chosen field) challenge) t.now block.now out.old)) }
{
    for j in 0..out.len() {
        out[j] = line_at(challenge, t, block, out, j, field).word();
    }
}
