// One run from a message to a verified opening: depth 1, rate 2, the message 5 + 7 X at the point 3.
#![tactic(auto)]

use std::io;
use tvarchula::{coding, opening};

fn main(rt: HostRuntime) -> io::Result<()> {
    let p = print::parameters(1, 2, 1);
    let g = [1u32, 1];
    let t = [2u32, 3];
    let t2 = [2147483645u32, 2147483644];
    let message = [5u32, 7];
    let z = [3u32];
    let r = [4u32];
    let queries = [0u32, 1];
    print::label(&rt, b"depth 1 rate 2")?;
    print::end(&rt)?;
    let mut block = [0u32; 4];
    coding::tv_encode(false, p, &g, &t, &t2, &message, &mut block);
    print::words(&rt, b"codeword", &block)?;
    let mut opened = [0u32; 6];
    let mut work = [0u32; 4];
    let mut y = 0u32;
    opening::tv_write_opening(
        false,
        p,
        &g,
        &t,
        &t2,
        &message,
        &z,
        &r,
        &mut opened,
        &mut work,
        &mut y,
    );
    print::words(&rt, b"opening", &opened)?;
    let v = opening::tv_verify_opening(false, p, &g, &t, &t2, &block, &z, y, &r, &queries, &opened);
    print::line(&rt, b"verdict", v.number)
}
