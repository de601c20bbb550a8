// Prints the digests of the standard's example messages, of messages that end around the ends of blocks, and of leaves and a node;
// the file stdout has what another implementation says of them.
#![tactic(auto)]

ghost use Rattle.std.specs.Prelude.{◌≤◌};

use sha256::Digest;
use std::io;

// Two digits to a byte.
fn hex(rt: &impl Print, s: &[u8]) -> io::Result<()> {
    for x in s {
        print!(rt; "{x:02x}")?;
    }
    Ok(())
}

fn line(rt: &impl Print, label: &[u8], d: Digest) -> io::Result<()> {
    print::label(rt, label)?;
    print::label(rt, b" ")?;
    hex(rt, &d.bytes)?;
    print::end(rt)
}

fn show(rt: &impl Print, label: &[u8], message: &[u8]) -> io::Result<()> {
    line(rt, label, sha256::sha256(message))
}

// The first n of 1005 bytes that are all x.
fn repeated(rt: &impl Print, label: &[u8], x: u8, n: usize) -> io::Result<()>
    requires { n ≤ 1005 }
{
    let a = [x; 1005];
    show(rt, label, &a[0..n])
}

// A function of its own, so that a caller's proof knows the length and does not compute the list.
fn million() -> [u8; 1000000] {
    [97; 1000000]
}

fn texts(rt: &impl Print) -> io::Result<()> {
    let none = [0u8; 0];
    show(rt, b"empty", &none)?;
    show(rt, b"abc", b"abc")?;
    show(
        rt,
        b"448 bits",
        b"abcdbcdecdefdefgefghfghighijhijkijkljklmklmnlmnomnopnopq",
    )?;
    show(
        rt,
        b"896 bits",
        b"abcdefghbcdefghicdefghijdefghijkefghijklfghijklmghijklmnhijklmnoijklmnopjklmnopqklmnopqrlmnopqrsmnopqrstnopqrstu",
    )
}

fn lengths(rt: &impl Print) -> io::Result<()> {
    repeated(rt, b"1 x 189", 189, 1)?;
    repeated(rt, b"55 x 0", 0, 55)?;
    repeated(rt, b"56 x 0", 0, 56)?;
    repeated(rt, b"57 x 0", 0, 57)?;
    repeated(rt, b"63 x 0", 0, 63)?;
    repeated(rt, b"64 x 0", 0, 64)?;
    repeated(rt, b"119 x 0", 0, 119)?;
    repeated(rt, b"120 x 0", 0, 120)?;
    repeated(rt, b"1000 x 0", 0, 1000)?;
    repeated(rt, b"1000 x A", b'A', 1000)?;
    repeated(rt, b"1005 x U", b'U', 1005)
}

fn trees(rt: &impl Print) -> io::Result<()> {
    line(rt, b"leaf 1 2", hash_tree::leaf(1, 2))?;
    line(
        rt,
        b"leaf 305419896 2147483646",
        hash_tree::leaf(305419896, 2147483646),
    )?;
    let a = [97u8; 32];
    let b = [98u8; 32];
    line(rt, b"node of 32 x a, 32 x b", hash_tree::node(&a, &b))
}

fn main(rt: HostRuntime) -> io::Result<()> {
    texts(&rt)?;
    lengths(&rt)?;
    let a = million();
    show(&rt, b"1000000 x a", &a)?;
    trees(&rt)
}
