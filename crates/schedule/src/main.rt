// The program: reads one kind 1 record from standard input, and writes its listing to standard output.
#![tactic(auto)]

use std::io;
use std::io::{Cursor, Read};

// A byte more than the record has, so that a longer input is seen and refused.
const MOST: usize = 22;

fn main(rt: HostRuntime) -> io::Result<()> {
    let mut input = [0u8; MOST];
    let read = io::copy(
        &mut rt.stdin().take(MOST as u64),
        &mut Cursor::new(&mut input[..]),
    )?;
    let count = read.min(MOST as u64) as usize;
    let mut out = [0u8; listing::ROOM];
    let size = listing::list(&input[..count], &mut out);
    rt.write_all(&out[..size])
}
