// What one pass over a base matrix and the diagonals of all levels finds of their words.
#![tactic(auto)]

ghost use Rattle.std.specs.Prelude.{◌≡◌, ◌&&◌};
ghost use Rattle.residue.specs.Chosen.{chosen};
ghost use Rattle.words.specs.Scans.{all_below};
ghost use Rattle.parameters.specs.Parameters.{RowScanned};

use residue::Field;
use words::scan;

// What one pass over base matrix and diagonals finds, where all lengths are right.
#[derive(Clone, Copy, Debug, PartialEq, Eq)]
pub struct RowScan {
    // All words of g, t and t2 are below the modulus.
    pub words: bool,
    // T and T' differ in every place.
    pub apart: bool,
}

#[tactic(auto, unfolding(crate::specs::Parameters::row_words))]
pub fn scan_row(lengths: bool, g: &[u32], t: &[u32], t2: &[u32], field: Field) -> RowScan
    ensures { RowScanned (chosen field) lengths g.now t.now t2.now result.words result.apart }
{
    if !lengths {
        return RowScan {
            words: false,
            apart: false,
        };
    }
    let row = scan::all_below(g, field);
    let diagonals = scan::scan_pair(t, t2, field);
    RowScan {
        words: row & diagonals.below,
        apart: diagonals.apart,
    }
}

// Whether all words of a message or block are below the modulus too.
pub fn all_words_ok(row: bool, m: &[u32], field: Field) -> bool
    ensures { result ≡ (row && all_below (chosen field) m.now) }
{
    row && scan::all_below(m, field)
}
