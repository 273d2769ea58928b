// Reads lines of hexadecimal from standard input, one piece of a font a line, and writes `sound`, the refusal or `too big`: what is answered
// is proved of `frames` for any cutting of the input into chunks. 1,024 chunks of 4,096 bytes are the limit, and one more tells whether there
// is more: nothing behind it changes the answer. A bad line ends the reading.
#![tactic(auto)]

use frames::Frames;
use std::io::{self, Read};

const CHUNK: usize = 4096;

// The input, fed chunk by chunk.
fn frames_of(reader: &mut impl Read) -> io::Result<Frames> {
    let mut buf = [0; CHUNK];
    let mut state = frames::fresh();
    for _ in 0..1025 {
        let n = input::read_full(reader, &mut buf)?;
        state = frames::fed(state, &buf[..n]);
        if n < CHUNK || state.bad.is_some() {
            break;
        }
    }
    Ok(state)
}

fn main(rt: HostRuntime) -> io::Result<()> {
    let state = frames_of(&mut rt.stdin())?;
    let answer = frames::written(frames::close(state));
    rt.write_all(&answer.bytes[..answer.len])
}
