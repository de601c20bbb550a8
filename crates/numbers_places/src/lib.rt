// Where the refusals 4, 5 and 6 find the first fault: index and input with 4, the index with 5 and 6.
#![tactic(auto)]

use numbers_openings::openings;
use std::io;
use tvarchula::coding;

// A message of four words at rate 2.
fn encode(
    rt: &impl Print,
    text: &[u8],
    g: &[u32],
    t: &[u32],
    t2: &[u32],
    message: &[u32],
) -> io::Result<()> {
    let mut block = [0u32; 8];
    let p = print::parameters(2, 2, 1);
    print::reply(
        rt,
        text,
        coding::tv_encode(false, p, g, t, t2, message, &mut block),
    )
}

fn words(rt: &impl Print, text: &[u8], t: &[u32], t2: &[u32]) -> io::Result<()> {
    let g = [1u32, 1];
    let message = [1u32, 2, 2147483647, 4];
    encode(rt, text, &g, t, t2, &message)
}

// The message has a word that is too large, too.
pub fn inputs(rt: &impl Print) -> io::Result<()> {
    let t = [2u32, 3, 4, 5, 6, 2147483647];
    let t2 = [3u32, 4, 2147483647, 6, 7, 4294967295];
    let good = [12u32, 13, 14, 15, 16, 17];
    words(rt, b"words of T, T' and the message:", &t, &t2)?;
    words(rt, b"of T' and the message:", &good, &t2)?;
    words(rt, b"of the message:", &good, &good)
}

fn legal(rt: &impl Print, text: &[u8], last: u32) -> io::Result<()> {
    let g = [1u32, last];
    let t = [2u32, 3, 4, 5, 6, 7];
    let t2 = [3u32, 4, 5, 5, 7, 7];
    let message = [1u32, 2, 3, 4];
    encode(rt, text, &g, &t, &t2, &message)
}

// The diagonals are equal in places 3 and 5, both of level 1, which begins at 2.
pub fn pairs(rt: &impl Print) -> io::Result<()> {
    legal(rt, b"a zero at 1:", 0)?;
    legal(rt, b"equal pairs at 3 and 5:", 1)
}

fn fold(rt: &impl Print, text: &[u8], challenge: u32, block: &[u32]) -> io::Result<()> {
    let t = [2u32, 3];
    let t2 = [2147483645u32, 3];
    let mut folded = [0u32; 2];
    let p = print::parameters(1, 2, 1);
    print::reply(
        rt,
        text,
        coding::tv_fold(false, p, &t, &t2, block, challenge, &mut folded),
    )
}

pub fn folds(rt: &impl Print) -> io::Result<()> {
    let block = [19u32, 26, 2147483638, 2147483631];
    let large = [19u32, 2147483647, 2147483638, 2147483647];
    fold(
        rt,
        b"fold a block with words too large:",
        2147483647,
        &large,
    )?;
    fold(rt, b"by a challenge too large:", 2147483647, &block)?;
    fold(rt, b"with an equal pair:", 4, &block)
}

fn verify(rt: &impl Print, text: &[u8], z: u32, y: u32, r: u32) -> io::Result<()> {
    let queries = [0u32];
    let opened = [2147483637u32, 36, 152, 33, 2147483647, 2147483647];
    print::reply(rt, text, openings::depth_1(z, y, r, &queries, &opened))
}

// The opening has two words that are too large.
pub fn claims(rt: &impl Print) -> io::Result<()> {
    verify(
        rt,
        b"words of z, y, r and the opening:",
        2147483647,
        2147483647,
        2147483647,
    )?;
    verify(rt, b"of y, r and the opening:", 3, 2147483647, 2147483647)?;
    verify(rt, b"of r and the opening:", 3, 26, 2147483647)?;
    verify(rt, b"of the opening:", 3, 26, 4)
}
