// Base blocks of two and four words: at rate 2 with k0 = 2 a base block has four words, with k0 = 4 it has eight.
#![tactic(auto)]

use job::Parameters;
use print::parameters as base;
use reply::answer::Reply;
use std::io;
use tvarchula::{coding, filling, ground, opening};

// Two rows of four words: 0 1 3 4 and four others. T is 2 3 4 5, T' is 6 7 8 9.
fn encode(
    rt: &impl Print,
    text: &[u8],
    p: Parameters,
    second: u32,
    block: &mut [u32],
) -> io::Result<()> {
    let g = [0u32, 1, 3, 4, second, 6, 7, 8];
    let t = [2u32, 3, 4, 5];
    let t2 = [6u32, 7, 8, 9];
    let message = [5u32, 7, 2, 3];
    print::reply(
        rt,
        text,
        coding::tv_encode(false, p, &g, &t, &t2, &message, block),
    )
}

// A zero in the corner of a regular matrix is legal. With 0 for 5 the first column is 0, and the first two columns have no inverse.
pub fn encodings(rt: &impl Print) -> io::Result<()> {
    let mut block = [0u32; 8];
    encode(rt, b"k0 = 2, encode 5 7 2 3:", base(1, 2, 2), 5, &mut block)?;
    print::words(rt, b"codeword", &block)?;
    encode(rt, b"without an inverse:", base(1, 2, 2), 0, &mut block)?;
    encode(rt, b"k0 = 3:", base(1, 2, 3), 5, &mut block)?;
    encode(rt, b"k0 = 3, rate 17:", base(1, 17, 3), 5, &mut block)?;
    encode(rt, b"k0 = 3, depth 20:", base(20, 2, 3), 5, &mut block)?;
    encode(rt, b"k0 = 2, depth 20:", base(20, 2, 2), 5, &mut block)
}

fn decode(rt: &impl Print, text: &[u8], last: u32) -> io::Result<()> {
    let g = [0u32, 1, 3, 4, 5, 6, 7, 8];
    let t = [2u32, 3, 4, 5];
    let t2 = [6u32, 7, 8, 9];
    let block = [65u32, 107, 172, 236, 125, 187, 280, last];
    let mut message = [0u32; 4];
    let mut work = [9u32; 8];
    print::reply(
        rt,
        text,
        coding::tv_decode(
            false,
            base(1, 2, 2),
            &g,
            &t,
            &t2,
            &block,
            &mut message,
            &mut work,
        ),
    )?;
    print::words(rt, b"message", &message)?;
    print::words(rt, b"work", &work)
}

pub fn decodings(rt: &impl Print) -> io::Result<()> {
    decode(rt, b"decode:", 364)?;
    decode(rt, b"decode with the last word 365:", 365)
}

pub fn foldings(rt: &impl Print) -> io::Result<()> {
    let t = [2u32, 3, 4, 5];
    let t2 = [6u32, 7, 8, 9];
    let block = [65u32, 107, 172, 236, 125, 187, 280, 364];
    let mut folded = [0u32; 4];
    print::reply(
        rt,
        b"fold by 4:",
        coding::tv_fold(false, base(1, 2, 2), &t, &t2, &block, 4, &mut folded),
    )?;
    print::words(rt, b"folded", &folded)
}

// The low variable comes first in the point: 3 for it, 11 for that of level 1.
fn write(opened: &mut [u32], y: &mut u32) -> Reply {
    let g = [0u32, 1, 3, 4, 5, 6, 7, 8];
    let t = [2u32, 3, 4, 5];
    let t2 = [6u32, 7, 8, 9];
    let message = [5u32, 7, 2, 3];
    let z = [3u32, 11];
    let r = [4u32];
    let mut work = [9u32; 8];
    opening::tv_write_opening(
        false,
        base(1, 2, 2),
        &g,
        &t,
        &t2,
        &message,
        &z,
        &r,
        opened,
        &mut work,
        y,
    )
}

pub fn written(rt: &impl Print) -> io::Result<()> {
    let mut opened = [0u32; 9];
    let mut y = 0u32;
    print::reply(rt, b"write at 3 11 by 4:", write(&mut opened, &mut y))?;
    print::line(rt, b"f(3, 11):", y)?;
    print::words(rt, b"the opening:", &opened)
}

// Two words of v, and the last of block 0.
fn verify(rt: &impl Print, text: &[u8], y: u32, v0: u32, v1: u32, last: u32) -> io::Result<()> {
    let g = [0u32, 1, 3, 4, 5, 6, 7, 8];
    let t = [2u32, 3, 4, 5];
    let t2 = [6u32, 7, 8, 9];
    let block = [65u32, 107, 172, 236, 125, 187, 280, 364];
    let z = [3u32, 11];
    let r = [4u32];
    let queries = [0u32, 3];
    let opened = [2147483387u32, 407, 1536, v0, v1, 95, 127, 172, last];
    print::reply(
        rt,
        text,
        opening::tv_verify_opening(
            false,
            base(1, 2, 2),
            &g,
            &t,
            &t2,
            &block,
            &z,
            y,
            &r,
            &queries,
            &opened,
        ),
    )
}

// 10 and 20 have the value of 13 and 19 at 3: only the base check tells them apart.
pub fn verdicts(rt: &impl Print) -> io::Result<()> {
    verify(rt, b"verify y = 147:", 147, 13, 19, 204)?;
    verify(rt, b"y = 148:", 148, 13, 19, 204)?;
    verify(rt, b"v = 13 20:", 147, 13, 20, 204)?;
    verify(rt, b"v = 10 20:", 147, 10, 20, 204)?;
    verify(rt, b"block 0 changed at 3:", 147, 13, 19, 205)
}

// Four rows of eight words, the first four columns a permutation.
pub fn four(rt: &impl Print) -> io::Result<()> {
    let g = [
        1u32, 0, 0, 0, 1, 1, 1, 1, 0, 0, 1, 0, 1, 2, 4, 8, 0, 1, 0, 0, 1, 3, 9, 27, 0, 0, 0, 1, 1,
        5, 25, 125,
    ];
    let none = [0u32; 0];
    let message = [9u32, 8, 7, 6];
    let mut block = [0u32; 8];
    print::reply(
        rt,
        b"k0 = 4, depth 0, encode 9 8 7 6:",
        coding::tv_encode(false, base(0, 2, 4), &g, &none, &none, &message, &mut block),
    )?;
    print::words(rt, b"codeword", &block)
}

// Evaluation asks for no rate, the tables for k0 alone.
pub fn sizes(rt: &impl Print) -> io::Result<()> {
    let message = [9u32, 8, 7, 6];
    let z = [3u32, 11];
    let mut value = 0u32;
    print::reply(
        rt,
        b"9 8 7 6 at 3 11, rate 0:",
        ground::tv_evaluate(false, base(0, 0, 4), &message, &z, &mut value),
    )?;
    print::line(rt, b"value", value)?;
    let t = [3i32, 5];
    let mut m = [0u32; 2];
    print::reply(
        rt,
        b"table of 2 entries, k0 = 2:",
        ground::tv_table_to_coefficients(false, base(99, 99, 2), &t, &mut m),
    )?;
    print::reply(
        rt,
        b"table of 2 entries, k0 = 4:",
        ground::tv_table_to_coefficients(false, base(99, 99, 4), &t, &mut m),
    )?;
    print::reply(
        rt,
        b"table of 2 entries, k0 = 3:",
        ground::tv_table_to_coefficients(false, base(99, 99, 3), &t, &mut m),
    )
}

pub fn not_filled(rt: &impl Print) -> io::Result<()> {
    let mut g = [7u32; 2];
    let mut t = [7u32; 2];
    let mut t2 = [7u32; 2];
    print::reply(
        rt,
        b"fill with k0 = 2:",
        filling::tv_fill_roots(base(1, 2, 2), &mut g, &mut t, &mut t2),
    )
}
