// Openings over the second field, and what the rule fills.
#![tactic(auto)]

use job::Parameters;
use std::io;
use tvarchula::{coding, filling, opening};

// Base messages of one word.
fn one_word(depth: u32, rate: u32) -> Parameters {
    print::parameters(depth, rate, 1)
}

fn verify(rt: &impl Print, text: &[u8], field: bool, y: u32) -> io::Result<()> {
    let g = [1u32, 1];
    let t = [2u32, 3];
    let t2 = [2013265919u32, 2013265918];
    let block = [19u32, 26, 2013265912, 2013265905];
    let z = [3u32];
    let r = [4u32];
    let queries = [0u32, 1];
    let opened = [2013265911u32, 36, 152, 33, 33, 33];
    print::reply(
        rt,
        text,
        opening::tv_verify_opening(
            field,
            one_word(1, 2),
            &g,
            &t,
            &t2,
            &block,
            &z,
            y,
            &r,
            &queries,
            &opened,
        ),
    )
}

pub fn verdicts(rt: &impl Print) -> io::Result<()> {
    verify(rt, b"verify y = 26:", true, 26)?;
    verify(rt, b"y = 27:", true, 27)?;
    verify(rt, b"y = 26, as of the first field:", false, 26)
}

// At depth 2, its codeword: the values of 1 + 3 X + 2 X^2 + 4 X^3 at the powers of the root of order 8.
pub fn filled(rt: &impl Print) -> io::Result<()> {
    let mut g = [0u32; 2];
    let mut t = [0u32; 6];
    let mut t2 = [0u32; 6];
    print::reply(
        rt,
        b"fill depth 2, rate 2:",
        filling::tv_fill_roots(one_word(2, 2), &mut g, &mut t, &mut t2),
    )?;
    print::words(rt, b"g", &g)?;
    print::words(rt, b"T", &t)?;
    print::words(rt, b"T'", &t2)?;
    let message = [1u32, 2, 3, 4];
    let mut block = [0u32; 8];
    print::reply(
        rt,
        b"encode 1 2 3 4:",
        coding::tv_encode(true, one_word(2, 2), &g, &t, &t2, &message, &mut block),
    )?;
    print::words(rt, b"codeword", &block)
}

fn fill(
    rt: &impl Print,
    text: &[u8],
    depth: u32,
    rate: u32,
    g: &mut [u32],
    t: &mut [u32],
) -> io::Result<()> {
    let mut t2 = [7u32; 3];
    print::reply(
        rt,
        text,
        filling::tv_fill_roots(one_word(depth, rate), g, t, &mut t2),
    )?;
    print::words(rt, b"g", g)
}

// At rate 3 and depth 1 each slice has three words.
pub fn not_filled(rt: &impl Print) -> io::Result<()> {
    let mut g = [7u32; 3];
    let mut t = [7u32; 3];
    let mut more = [7u32; 4];
    fill(rt, b"fill depth 21, rate 17:", 21, 17, &mut g, &mut t)?;
    fill(rt, b"fill depth 1, rate 17:", 1, 17, &mut g, &mut t)?;
    fill(rt, b"fill rate 3, T too long:", 1, 3, &mut g, &mut more)?;
    fill(rt, b"fill rate 3:", 1, 3, &mut g, &mut t)
}
