// Reads fabric.bin and proof.bin of the current folder and prints the weights of the proposed sum and its constant, or why it is refused.
#![tactic(auto)]

ghost use Rattle.std.specs.Prelude.{◌≡◌, IfSome, IfOk, take};

use arrayvec::ArrayVec;
use std::fs;
use std::io::{self, Read, Write};

// The first bytes that a reader gives, at most so many.
fn first_bytes<R: Read + Drop, const MOST: usize>(reader: R) -> io::Result<ArrayVec<u8, MOST>>
    ensures { IfSome (R.remaining reader) (λ given. IfOk result (λ bytes. bytes.items ≡ take MOST given)) }
{
    let mut bytes = ArrayVec::new();
    io::copy(&mut reader.take(MOST as u64), &mut bytes)?;
    Ok(bytes)
}

// The first bytes of a file. One that is missing, or that cannot be read, is empty.
fn file_start<const MOST: usize>(rt: &HostRuntime, path: &str) -> ArrayVec<u8, MOST> {
    match fs::open(rt, path) {
        Ok(file) => first_bytes(file).unwrap_or_default(),
        Err(_) => ArrayVec::new(),
    }
}

fn main(rt: HostRuntime) -> io::Result<()> {
    let fabric = file_start::<1669>(&rt, "fabric.bin");
    let proof = file_start::<16385>(&rt, "proof.bin");
    // In one write: what print! hands on comes in pieces, and a reader that goes after the first would leave the others behind.
    io::writer(&rt).write_all(lines::listing(&fabric, &proof).as_bytes())
}
