// Openings, with the places that a failure names.
#![tactic(auto)]

use std::io;
use tvarchula::opening;

pub mod openings;

fn one_word(rt: &impl Print, text: &[u8], y: u32, queries: &[u32]) -> io::Result<()> {
    print::reply(rt, text, openings::depth_0(y, queries))
}

pub fn depth_0(rt: &impl Print) -> io::Result<()> {
    let none = [0u32; 0];
    let query = [0u32];
    one_word(rt, b"depth 0, y = 9:", 9, &none)?;
    one_word(rt, b"depth 0, y = 8:", 8, &none)?;
    one_word(rt, b"depth 0, one query:", 9, &query)
}

fn asked(rt: &impl Print, text: &[u8], y: u32, queries: &[u32]) -> io::Result<()> {
    let opened = [2147483637u32, 36, 152, 33, 33, 33];
    print::reply(rt, text, openings::depth_1(3, y, 4, queries, &opened))
}

pub fn queries(rt: &impl Print) -> io::Result<()> {
    let first = [0u32];
    let last = [1u32];
    let beyond = [2u32];
    asked(rt, b"query 1:", 26, &last)?;
    asked(rt, b"query 2:", 26, &beyond)?;
    asked(rt, b"y = 27:", 27, &first)
}

// There are two places. One that stands twice is refused before any check, one that is too large before that.
pub fn repeated(rt: &impl Print) -> io::Result<()> {
    let both = [0u32, 1];
    let twice = [1u32, 1];
    let more = [0u32, 1, 0];
    let beyond = [1u32, 1, 2];
    asked(rt, b"queries 0 1:", 26, &both)?;
    asked(rt, b"queries 1 1:", 26, &twice)?;
    asked(rt, b"queries 1 1, y = 27:", 27, &twice)?;
    asked(rt, b"queries 0 1 0:", 26, &more)?;
    asked(rt, b"queries 1 1 2:", 26, &beyond)
}

// eq(z, r) is 0: the final check holds for any v, and the folds decide.
fn any_v(rt: &impl Print, text: &[u8], v: u32) -> io::Result<()> {
    let opened = [5u32, 0, 2147483628, v, v, v];
    let queries = [0u32];
    print::reply(rt, text, openings::depth_1(0, 5, 1, &queries, &opened))
}

pub fn eq_is_0(rt: &impl Print) -> io::Result<()> {
    any_v(rt, b"z = 0, r = 1:", 12)?;
    any_v(rt, b"z = 0, r = 1, with 13s:", 13)
}

// Word 0 of block 1 is 93 in the opening that is written. Query 2 meets it at level 0, where it goes on at place 0; query 3 goes on at 1 and
// does not.
fn place(rt: &impl Print, text: &[u8], query: u32, word: u32) -> io::Result<()> {
    let opened = [
        2147483592u32,
        204,
        969,
        2147475347,
        24485,
        108066,
        263,
        word,
        127,
        127,
        161,
        263,
        263,
    ];
    print::reply(rt, text, openings::depth_2(query, &opened))
}

pub fn places(rt: &impl Print) -> io::Result<()> {
    place(rt, b"depth 2, query 2:", 2, 93)?;
    place(rt, b"query 2, block 1 changed at 0:", 2, 1)?;
    place(rt, b"query 3, block 1 changed at 0:", 3, 1)
}

fn write(opened: &mut [u32], y: &mut u32) -> u32 {
    let g = [1u32, 1];
    let t = [2u32, 3, 4, 5, 6, 7];
    let t2 = [3u32, 4, 5, 6, 7, 8];
    let message = [1u32, 2, 3, 4];
    let z = [5u32, 6];
    let r = [7u32, 8];
    let mut work = [0u32; 8];
    let p = print::parameters(2, 2, 1);
    opening::tv_write_opening(
        false, p, &g, &t, &t2, &message, &z, &r, opened, &mut work, y,
    )
    .number
}

// An opening at depth 2, written, and the value that comes with it.
pub fn written(rt: &impl Print) -> io::Result<()> {
    let mut opened = [0u32; 13];
    let mut y = 0u32;
    print::line(rt, b"depth 2 opened:", write(&mut opened, &mut y))?;
    print::line(rt, b"f(5, 6):", y)?;
    print::words(rt, b"the opening:", &opened)
}
