// The same kind of numbers over the second field, p = 2013265921.
#![tactic(auto)]

use job::Parameters;
use std::io;
use tvarchula::{coding, ground};

// Base messages of one word.
fn one_word(depth: u32) -> Parameters {
    print::parameters(depth, 2, 1)
}

// Number and places, kind and amount.
fn read(rt: &impl Print, word: u32) -> io::Result<()> {
    let r = ground::tv_read_clearance(true, word);
    print::label(rt, b"second field, read")?;
    print::number(rt, word)?;
    print::number(rt, r.kind)?;
    print::number(rt, r.amount)?;
    print::reply(rt, b":", r.answer)
}

pub fn readings(rt: &impl Print) -> io::Result<()> {
    read(rt, 1006632960)?;
    read(rt, 1006632961)?;
    read(rt, 2013265920)?;
    read(rt, 2013265921)
}

fn range(rt: &impl Print, text: &[u8], x: i32) -> io::Result<()> {
    let t = [x];
    let mut m = [0u32; 1];
    print::reply(
        rt,
        text,
        ground::tv_table_to_coefficients(true, one_word(0), &t, &mut m),
    )
}

pub fn ranges(rt: &impl Print) -> io::Result<()> {
    range(rt, b"clearance 1006632960:", 1006632960)?;
    range(rt, b"clearance 1006632961:", 1006632961)?;
    range(rt, b"clearance -1006632961:", -1006632961)
}

pub fn transforms(rt: &impl Print) -> io::Result<()> {
    let t = [-1i32, 1, 4, -10];
    let mut m = [0u32; 4];
    print::reply(
        rt,
        b"table -1 1 4 -10:",
        ground::tv_table_to_coefficients(true, one_word(0), &t, &mut m),
    )?;
    print::words(rt, b"coefficients", &m)
}

fn evaluate(rt: &impl Print, text: &[u8], z: u32) -> io::Result<()> {
    let m = [5u32, 7];
    let point = [z];
    let mut value = 0u32;
    print::reply(
        rt,
        text,
        ground::tv_evaluate(true, one_word(1), &m, &point, &mut value),
    )?;
    print::line(rt, b"value", value)
}

pub fn evaluations(rt: &impl Print) -> io::Result<()> {
    evaluate(rt, b"5 7 at 2013265920:", 2013265920)?;
    evaluate(rt, b"5 7 at 2013265921:", 2013265921)
}

// T' is -T.
pub fn encodings(rt: &impl Print) -> io::Result<()> {
    let g = [1u32, 1];
    let t = [2u32, 3];
    let t2 = [2013265919u32, 2013265918];
    let message = [5u32, 7];
    let mut block = [0u32; 4];
    print::reply(
        rt,
        b"encode 5 7:",
        coding::tv_encode(true, one_word(1), &g, &t, &t2, &message, &mut block),
    )?;
    print::words(rt, b"codeword", &block)?;
    let mut folded = [0u32; 2];
    print::reply(
        rt,
        b"fold by 4:",
        coding::tv_fold(true, one_word(1), &t, &t2, &block, 4, &mut folded),
    )?;
    print::words(rt, b"folded", &folded)
}

fn decode(rt: &impl Print, text: &[u8], last: u32) -> io::Result<()> {
    let g = [1u32, 1];
    let t = [2u32, 3];
    let t2 = [2013265919u32, 2013265918];
    let block = [19u32, 26, 2013265912, last];
    let mut message = [0u32; 2];
    let mut work = [9u32; 4];
    print::reply(
        rt,
        text,
        coding::tv_decode(
            true,
            one_word(1),
            &g,
            &t,
            &t2,
            &block,
            &mut message,
            &mut work,
        ),
    )?;
    print::words(rt, b"message", &message)
}

pub fn decodings(rt: &impl Print) -> io::Result<()> {
    decode(rt, b"decode:", 2013265905)?;
    decode(rt, b"decode with the last word 2013265906:", 2013265906)?;
    decode(rt, b"decode with the last word 2147483631:", 2147483631)
}
