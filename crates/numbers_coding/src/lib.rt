// Encoding, folding and decoding at rate 2 with the diagonals [2, 3] and their opposites.
#![tactic(auto)]

use job::Parameters;
use residue::Field;
use std::io;

// Base messages of one word.
fn one_word(depth: u32, rate: u32) -> Parameters {
    print::parameters(depth, rate, 1)
}

fn encode(
    rt: &impl Print,
    text: &[u8],
    depth: u32,
    rate: u32,
    g: &[u32],
    t2: &[u32],
    block: &mut [u32],
) -> io::Result<()> {
    let t = [2u32, 3];
    let m = [5u32, 7];
    print::answer(
        rt,
        text,
        encode::encode(one_word(depth, rate), g, &t, t2, &m, block, Field::First),
    )
}

fn fold(
    rt: &impl Print,
    text: &[u8],
    level: u32,
    block: &[u32],
    folded: &mut [u32],
) -> io::Result<()> {
    let t = [2u32, 3];
    let t2 = [2147483645u32, 2147483644];
    print::answer(
        rt,
        text,
        fold::fold(one_word(level, 2), &t, &t2, block, 4, folded, Field::First),
    )
}

fn foldings(rt: &impl Print, block: &[u32]) -> io::Result<()> {
    let mut folded = [0u32; 2];
    fold(rt, b"fold by 4:", 1, block, &mut folded)?;
    print::words(rt, b"folded", &folded)?;
    fold(rt, b"fold from level 0:", 0, block, &mut folded)?;
    fold(rt, b"fold from level 17:", 17, block, &mut folded)?;
    fold(rt, b"fold from level 21:", 21, block, &mut folded)
}

pub fn encodings(rt: &impl Print) -> io::Result<()> {
    let g = [1u32, 1];
    let t2 = [2147483645u32, 2147483644];
    let mut block = [0u32; 4];
    encode(rt, b"encode 5 7:", 1, 2, &g, &t2, &mut block)?;
    print::words(rt, b"codeword", &block)?;
    foldings(rt, &block)
}

// The block of 5 7, but for its last word.
fn decode(
    rt: &impl Print,
    text: &[u8],
    last: u32,
    m: &mut [u32],
    work: &mut [u32],
) -> io::Result<()> {
    let g = [1u32, 1];
    let t = [2u32, 3];
    let t2 = [2147483645u32, 2147483644];
    let block = [19u32, 26, 2147483638, last];
    print::answer(
        rt,
        text,
        decode::decode::decode(one_word(1, 2), &g, &t, &t2, &block, m, work, Field::First),
    )?;
    print::words(rt, b"message", m)
}

pub fn decodings(rt: &impl Print) -> io::Result<()> {
    let mut m = [0u32; 2];
    let mut work = [9u32; 4];
    decode(rt, b"decode:", 2147483631, &mut m, &mut work)?;
    print::words(rt, b"work", &work)?;
    decode(
        rt,
        b"decode with the last word 2147483632:",
        2147483632,
        &mut m,
        &mut work,
    )
}

// The last word of g, and the opposite of 2 beside a pair of 3s.
fn refusal(rt: &impl Print, text: &[u8], depth: u32, rate: u32, last: u32) -> io::Result<()> {
    let g = [1u32, last];
    let t2 = [2147483645u32, 3];
    let mut block = [0u32; 4];
    encode(rt, text, depth, rate, &g, &t2, &mut block)
}

pub fn refusals(rt: &impl Print) -> io::Result<()> {
    refusal(rt, b"encode at rate 1:", 1, 1, 1)?;
    refusal(rt, b"encode at rate 17:", 1, 17, 1)?;
    refusal(rt, b"encode at depth 17:", 17, 2, 1)?;
    refusal(rt, b"encode at depth 21:", 21, 2, 1)?;
    refusal(rt, b"a zero in g and an equal pair:", 1, 2, 0)?;
    refusal(rt, b"an equal pair:", 1, 2, 1)
}
