// Inner layer: a table's items written in another coding. Definitions: specs/Meaning.antt, specs/Reading.antt. Measured first and then written: VALUE,
// SIZE and ROOM are told before a byte is written.
#![tactic(auto)]

ghost use Rattle.std.specs.Prelude.{◌≡◌, ◌≤◌, length, Ok};
ghost use Rattle.base.specs.Reading.{over};
ghost use Rattle.transcode.specs.Reading.{recoded, table_len};
ghost use Rattle.transcode.specs.Bounds.{MeasuredWithin};

use coding::Coding;
use table::Steps;
use token::Token;

// The bytes that a tail's items are in another coding, or the place in the tail of the first value that it can't carry: one pass.
// Asks for a tail no longer than a file, so that the sum can't wrap: the font's check gives it.
pub fn table_len(from: Coding, to: Coding, tail: &[u8]) -> Result<usize, usize>
    requires { length tail.now ≤ 1048576 }
    ensures equal { result ≡ table_len from to tail.now }
    ensures bounded { MeasuredWithin (length tail.now) result }
{
    let mark = coding::mark_len(to);
    let mut n: usize = 0;
    let mut at: usize = 0;
    for step in Steps::new(from, tail, 0) {
        let Ok((token, next)) = step else {
            return Ok(n);
        };
        match token {
            Token::Value(v) => {
                if coding::carries(to, v) {
                    n += coding::value_len(to, v);
                } else {
                    return Err(at);
                }
            }
            _ => n += mark,
        }
        at = next;
    }
    Ok(n)
}

// A tail's items in another coding, to the front of a buffer. Asks that the coding carries every value, and for room: `table_len` tells both.
pub fn write_table(from: Coding, to: Coding, tail: &[u8], out: &mut [u8])
    requires { (table_len from to tail.now ≡ Ok (length (recoded from to tail.now))) × (length (recoded from to tail.now) ≤ length out.old) }
    ensures { out.new ≡ over (recoded from to tail.now) out.old }
{
    let mut n: usize = 0;
    for step in Steps::new(from, tail, 0) {
        let Ok((token, _)) = step else {
            return;
        };
        match token {
            Token::Value(v) => n += coding::put_value(to, v, &mut out[n..]),
            Token::Start => n += coding::put_start(to, &mut out[n..]),
            Token::End => n += coding::put_end(to, &mut out[n..]),
        }
    }
}
