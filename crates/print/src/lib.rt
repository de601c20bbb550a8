// Lines of a label and numbers, and the parameters of a program's call.
#![tactic(auto)]

ghost use Rattle.std.specs.Prelude.{◌≡◌};

use job::{Parameters, Refusal, Reply};
use std::io;

// The depth, the rate and the words of a base message.
pub fn parameters(depth: u32, rate: u32, k0: u32) -> Parameters
    ensures { result ≡ record { depth = depth; rate = rate; k0 = k0 } }
{
    Parameters { depth, rate, k0 }
}

pub fn label(rt: &impl Print, text: &[u8]) -> io::Result<()> {
    rt.write_all(text)
}

pub fn number(rt: &impl Print, n: u32) -> io::Result<()> {
    print!(rt; " {n}")
}

pub fn end(rt: &impl Print) -> io::Result<()> {
    println!(rt)
}

pub fn line(rt: &impl Print, text: &[u8], n: u32) -> io::Result<()> {
    label(rt, text)?;
    number(rt, n)?;
    end(rt)
}

pub fn words(rt: &impl Print, text: &[u8], s: &[u32]) -> io::Result<()> {
    label(rt, text)?;
    for n in s {
        number(rt, *n)?;
    }
    end(rt)
}

// A number and its places.
pub fn reply(rt: &impl Print, text: &[u8], r: Reply) -> io::Result<()> {
    label(rt, text)?;
    number(rt, r.number)?;
    number(rt, r.first)?;
    number(rt, r.second)?;
    end(rt)
}

pub fn refusal(rt: &impl Print, text: &[u8], r: Refusal) -> io::Result<()> {
    reply(rt, text, job::numbers_of(r))
}

// An answer's number and places.
pub fn answer(rt: &impl Print, text: &[u8], a: Result<(), Refusal>) -> io::Result<()> {
    match a {
        Ok(()) => {
            let done = Reply {
                number: 0,
                first: 0,
                second: 0,
            };
            reply(rt, text, done)
        }
        Err(r) => refusal(rt, text, r),
    }
}
