// Inner layer: the few bytes of an unfinished header, entry or value, with their number. Definitions: specs/Reading.antt.
#![tactic(auto)]

ghost use Rattle.std.specs.Prelude.{◌≡◌, [], ◌++◌, ◌+◌, ◌≤◌, length};
ghost use Rattle.unfinished.specs.Reading.{held_bytes, held_of, put_of};

// Bytes that are still to be read with those that follow: the first `len` of `bytes`. An array and a length, since they stand in the record
// that C keeps (`loader::Loader`).
#[repr(C)]
#[derive(Clone, Copy)]
pub struct Held {
    pub len: usize,
    pub bytes: [u8; 32],
}

impl Held {
    // None.
    pub fn none() -> Held
        ensures { result ≡ held_of [] }
    {
        Held {
            len: 0,
            bytes: [0u8; 32],
        }
    }

    // More bytes behind those that are held. Asks that they fit: each caller has counted. `% 32` changes no number here: without it the compiler
    // makes the loop a call of `memcpy`, and the library calls nothing.
    pub fn put(self, s: &[u8]) -> Held
        requires { self.len + length s.now ≤ 32 }
        ensures equal { result ≡ put_of self s.now }
        ensures held { (held_bytes result ≡ held_bytes self ++ s.now) × (result.len ≡ self.len + length s.now) × (length result.bytes ≡ 32) }
    {
        let start = self.len;
        let mut bytes = self.bytes;
        for (i, b) in s.iter().enumerate() {
            let at = (start + i) % 32;
            bytes[at] = *b;
        }
        Held {
            len: start + s.len(),
            bytes: bytes,
        }
    }

    // These bytes alone, nothing behind them. Asks that they fit, as above.
    pub fn hold(s: &[u8]) -> Held
        requires { length s.now ≤ 32 }
        ensures { result ≡ held_of s.now }
    {
        Held::none().put(s)
    }

    // More bytes behind those that are held, and nothing behind them. Asks that they fit, as above.
    pub fn grow(self, s: &[u8]) -> Held
        requires { self.len + length s.now ≤ 32 }
        ensures { result ≡ held_of (held_bytes self ++ s.now) }
    {
        let g = self.put(s);
        let n = g.len;
        let bytes = g.bytes;
        Held::hold(&bytes[..n])
    }
}
