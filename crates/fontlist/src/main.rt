// Reads a file of up to 65,536 bytes from standard input and writes its listing: what the text holds is proved of `listing::list`.
// One byte more is read, so that a longer file is told. No listing is longer than the buffer (the contract of `listing::list`), so
// ROOM is never answered; for it nothing would be written.
#![tactic(auto)]

use std::io;

// More than the longest listing.
const BUFFER: usize = 917600;

// The listing of a file, by way of a buffer.
fn show(rt: &impl Print, file: &[u8], out: &mut [u8]) -> io::Result<()> {
    match listing::list(file, out) {
        Ok(n) => rt.write_all(&out[..n]),
        Err(_) => Ok(()),
    }
}

// The same with the buffer lent as an array. Stays apart: where `main` lends so long an array as a slice, the check runs out of stack (tried
// in crates/vectors).
fn run(rt: &impl Print, file: &[u8], out: &mut [u8; BUFFER]) -> io::Result<()> {
    show(rt, file, out)
}

fn main(rt: HostRuntime) -> io::Result<()> {
    let mut file = [0; 65537];
    let n = input::read_full(&mut rt.stdin(), &mut file)?;
    let mut out = [0; BUFFER];
    run(&rt, &file[..n], &mut out)
}
