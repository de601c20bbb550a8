// Runs the order's numbers and writes what comes of them, a line each; the file stdout says what they should be.
#![tactic(auto)]

use std::io;

fn main(rt: HostRuntime) -> io::Result<()> {
    numbers_ground::readings(&rt)?;
    numbers_ground::lengths(&rt)?;
    numbers_ground::ranges(&rt)?;
    numbers_ground::transforms(&rt)?;
    numbers_ground::evaluations(&rt)?;
    numbers_ground::depths(&rt)?;
    numbers_coding::encodings(&rt)?;
    numbers_coding::decodings(&rt)?;
    numbers_coding::refusals(&rt)?;
    numbers_openings::depth_0(&rt)?;
    numbers_openings::queries(&rt)?;
    numbers_openings::repeated(&rt)?;
    numbers_openings::eq_is_0(&rt)?;
    numbers_openings::written(&rt)?;
    numbers_openings::places(&rt)?;
    numbers_places::inputs(&rt)?;
    numbers_places::pairs(&rt)?;
    numbers_places::folds(&rt)?;
    numbers_places::claims(&rt)?;
    numbers_second::readings(&rt)?;
    numbers_second::ranges(&rt)?;
    numbers_second::transforms(&rt)?;
    numbers_second::evaluations(&rt)?;
    numbers_second::encodings(&rt)?;
    numbers_second::decodings(&rt)?;
    numbers_filled::verdicts(&rt)?;
    numbers_filled::filled(&rt)?;
    numbers_filled::not_filled(&rt)?;
    numbers_base::encodings(&rt)?;
    numbers_base::decodings(&rt)?;
    numbers_base::foldings(&rt)?;
    numbers_base::written(&rt)?;
    numbers_base::verdicts(&rt)?;
    numbers_base::four(&rt)?;
    numbers_base::sizes(&rt)?;
    numbers_base::not_filled(&rt)
}
