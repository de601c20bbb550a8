// Clearances, tables and evaluation.
#![tactic(auto)]

use job::{Parameters, Refusal, sizes};
use read_clearance::Reading;
use residue::Field;
use std::io;

// Base messages of one word.
fn one_word(depth: u32) -> Parameters {
    print::parameters(depth, 2, 1)
}

fn meaning(rt: &impl Print, r: Result<Reading, Refusal>) -> io::Result<()> {
    match r {
        Ok(Reading::Free(n)) => print::line(rt, b": free", n),
        Ok(Reading::Contact) => {
            print::label(rt, b": contact")?;
            print::end(rt)
        }
        Ok(Reading::Overlap(n)) => print::line(rt, b": overlap", n),
        Err(r) => print::refusal(rt, b": refused", r),
    }
}

fn read(rt: &impl Print, word: u32) -> io::Result<()> {
    print::label(rt, b"read")?;
    print::number(rt, word)?;
    meaning(rt, read_clearance::read_clearance(word, Field::First))
}

pub fn readings(rt: &impl Print) -> io::Result<()> {
    read(rt, 0)?;
    read(rt, 1)?;
    read(rt, 1073741823)?;
    read(rt, 1073741824)?;
    read(rt, 2147483646)?;
    read(rt, 2147483647)
}

fn transform(rt: &impl Print, text: &[u8], t: &[i32], m: &mut [u32]) -> io::Result<()> {
    print::answer(
        rt,
        text,
        coefficients::table_to_coefficients(one_word(0), t, m, Field::First),
    )
}

fn three(rt: &impl Print) -> io::Result<()> {
    let t = [7i32, -7, 0];
    let mut m = [0u32; 3];
    transform(rt, b"table of 3 entries:", &t, &mut m)
}

fn none(rt: &impl Print) -> io::Result<()> {
    let t = [0i32; 0];
    let mut m = [0u32; 0];
    transform(rt, b"table of 0 entries:", &t, &mut m)
}

fn one(rt: &impl Print) -> io::Result<()> {
    let t = [7i32];
    let mut m = [0u32; 1];
    transform(rt, b"table of 1 entry:", &t, &mut m)?;
    print::words(rt, b"message", &m)
}

pub fn lengths(rt: &impl Print) -> io::Result<()> {
    three(rt)?;
    none(rt)?;
    one(rt)
}

fn range(rt: &impl Print, text: &[u8], x: i32) -> io::Result<()> {
    let t = [x];
    let mut m = [0u32; 1];
    transform(rt, text, &t, &mut m)
}

pub fn ranges(rt: &impl Print) -> io::Result<()> {
    range(rt, b"clearance 1073741823:", 1073741823)?;
    range(rt, b"clearance 1073741824:", 1073741824)?;
    range(rt, b"clearance -1073741823:", -1073741823)?;
    range(rt, b"clearance -1073741824:", -1073741824)
}

fn coefficients(rt: &impl Print, text: &[u8], t: &[i32], m: &mut [u32]) -> io::Result<()> {
    transform(rt, text, t, m)?;
    print::words(rt, b"coefficients", m)
}

fn back(rt: &impl Print, m: &[u32], t: &mut [i32], work: &mut [u32]) -> io::Result<()> {
    print::answer(
        rt,
        b"and back:",
        table::coefficients_to_table(one_word(0), m, t, work, Field::First),
    )
}

fn back_and_there(rt: &impl Print, m: &[u32]) -> io::Result<()> {
    let mut t = [0i32; 4];
    let mut work = [9u32; 4];
    back(rt, m, &mut t, &mut work)?;
    let mut again = [0u32; 4];
    coefficients(rt, b"and to coefficients again:", &t, &mut again)?;
    print::words(rt, b"work", &work)
}

pub fn transforms(rt: &impl Print) -> io::Result<()> {
    let t = [3i32, 5, 4, 10];
    let mut m = [0u32; 4];
    coefficients(rt, b"table 3 5 4 10:", &t, &mut m)?;
    back_and_there(rt, &m)
}

fn value(rt: &impl Print, e: Result<u32, Refusal>) -> io::Result<()> {
    match e {
        Ok(v) => print::line(rt, b" value", v),
        Err(r) => print::refusal(rt, b" refused", r),
    }
}

fn evaluate(rt: &impl Print, text: &[u8], depth: u32, z: u32) -> io::Result<()> {
    print::label(rt, text)?;
    let m = [5u32, 7];
    let point = [z];
    value(
        rt,
        evaluate::evaluate(one_word(depth), &m, &point, Field::First),
    )
}

pub fn evaluations(rt: &impl Print) -> io::Result<()> {
    evaluate(rt, b"5 7 at 3:", 1, 3)?;
    evaluate(rt, b"5 7 at 2147483646:", 1, 2147483646)?;
    evaluate(rt, b"5 7 at 2147483647:", 1, 2147483647)?;
    evaluate(rt, b"5 7 at depth 17:", 17, 3)?;
    evaluate(rt, b"5 7 at depth 21:", 21, 3)
}

// A depth by itself: the words of one above 13 do not fit into a program's buffers.
fn depth(rt: &impl Print, text: &[u8], depth: u32) -> io::Result<()> {
    print::answer(
        rt,
        text,
        job::require(sizes::depth_ok(one_word(depth)), Refusal::Depth),
    )
}

pub fn depths(rt: &impl Print) -> io::Result<()> {
    depth(rt, b"depth 17:", 17)?;
    depth(rt, b"depth 20:", 20)?;
    depth(rt, b"depth 21:", 21)
}
