// Inner layer: one value at the front of some bytes, in UTF-8; its length alone; and a value written. Definitions: specs/Meaning.antt,
// specs/Reading.antt.
#![tactic(auto)]

ghost use Rattle.std.specs.Prelude.{◌≡◌, ◌+◌, ◌-◌, ◌*◌, ◌%◌, ◌≤◌, ◌<◌, length, get_or, drop, Some, None, IfSome};
ghost use Rattle.base.specs.Meaning.{pick};
ghost use Rattle.base.specs.Reading.{within, over};
ghost use Rattle.token.specs.Reading.{is_noncharacter};
ghost use Rattle.utf8.specs.Reading.{lead_of, begun, read_value, conts, permitted_at, is_scalar, is_utf8_value, utf8_key, plain_len};
ghost use Rattle.utf8.specs.Bounds.{Reached, RowOf};
ghost use Rattle.utf8.specs.Meaning.{Scalar, utf8_bytes};

use token::Malformed;

// What the first byte of a value says: the value's length, the modulus that leaves the first byte's bits, and the bounds of the second byte.
#[derive(Clone, Copy)]
pub struct Lead {
    pub len: usize,
    pub modulus: u8,
    pub lo: u8,
    pub hi: u8,
}

// Unicode, Table 3-7, "Well-Formed UTF-8 Byte Sequences":
//   code points         first    second   third    fourth
//   U+0000..U+007F      00..7F
//   U+0080..U+07FF      C2..DF   80..BF
//   U+0800..U+0FFF      E0       A0..BF   80..BF
//   U+1000..U+CFFF      E1..EC   80..BF   80..BF
//   U+D000..U+D7FF      ED       80..9F   80..BF
//   U+E000..U+FFFF      EE..EF   80..BF   80..BF
//   U+10000..U+3FFFF    F0       90..BF   80..BF   80..BF
//   U+40000..U+FFFFF    F1..F3   80..BF   80..BF   80..BF
//   U+100000..U+10FFFF  F4       80..8F   80..BF   80..BF
//
// The match stands in three parts, the rows of three and of four bytes each in one of their own: with all four rows of a single first byte
// in one match the compiler tests for these before any range.
#[tactic(auto, using(crate::proofs::Rows::begun_2))]
fn lead_of(b: u8) -> Option<Lead>
    ensures { result ≡ begun (lead_of b) }
{
    match b {
        0x00..=0x7F => Some(Lead {
            len: 1,
            modulus: 128,
            lo: 0x80,
            hi: 0xBF,
        }),
        0xC2..=0xDF => Some(Lead {
            len: 2,
            modulus: 32,
            lo: 0x80,
            hi: 0xBF,
        }),
        0xE0..=0xEF => Some(three_lead(b)),
        0xF0..=0xF4 => Some(four_lead(b)),
        _ => None,
    }
}

// The rows of three bytes. Asks for a first byte of these.
fn three_lead(b: u8) -> Lead
    requires { (224 ≤ b) × (b < 240) }
    ensures { result ≡ lead_of b }
{
    match b {
        0xE0 => Lead {
            len: 3,
            modulus: 16,
            lo: 0xA0,
            hi: 0xBF,
        },
        0xED => Lead {
            len: 3,
            modulus: 16,
            lo: 0x80,
            hi: 0x9F,
        },
        _ => Lead {
            len: 3,
            modulus: 16,
            lo: 0x80,
            hi: 0xBF,
        },
    }
}

// The rows of four bytes. Asks for a first byte of these.
fn four_lead(b: u8) -> Lead
    requires { (240 ≤ b) × (b < 245) }
    ensures { result ≡ lead_of b }
{
    match b {
        0xF0 => Lead {
            len: 4,
            modulus: 8,
            lo: 0x90,
            hi: 0xBF,
        },
        0xF4 => Lead {
            len: 4,
            modulus: 8,
            lo: 0x80,
            hi: 0x8F,
        },
        _ => Lead {
            len: 4,
            modulus: 8,
            lo: 0x80,
            hi: 0xBF,
        },
    }
}

// Whether a byte is within bounds.
fn is_within(x: u8, lo: u8, hi: u8) -> bool
    ensures { result ≡ within lo hi x }
{
    if x < lo {
        return false;
    }
    x <= hi
}

// A value's bits so far and six more. Asks for bits that leave room and for a byte from 80 on: the bounds give both.
fn six_more(v: u32, x: u8) -> u32
    requires { (v < 1048576) × (128 ≤ x) }
    ensures { (result ≡ v * 64 + (x - 128)) × (result < v * 64 + 128) }
{
    v * 64 + u32::from(x - 0x80)
}

// A value's byte k, within its bounds, where those before it gave v: the value if it ends here. Asks for what the bytes before can give,
// and for bounds from 80 on. It takes bounds and no row: a row has the second byte's only, all others are 80 to BF.
fn further(s: &[u8], k: usize, v: u32, lo: u8, hi: u8) -> Result<(u32, usize), Malformed>
    requires { (v < 1048576) × (128 ≤ lo) }
    ensures { (result ≡ conts 1 lo hi v k (drop k s.now)) × Reached (v * 64 + 128) (k + 1) result }
{
    if s.len() <= k {
        return Err(Malformed::Cut);
    }
    let x = s[k];
    let inside = is_within(x, lo, hi);
    if !inside {
        return Err(Malformed::Bad(k));
    }
    Ok((six_more(v, x), k + 1))
}

// A value of three bytes whose first gave v: the second has its bounds, the third is 80 to BF. Asks for what the rows have.
// No loop over the bytes for this and `four`: only the second byte has bounds of its own, so a loop would be no plainer.
fn three(s: &[u8], v: u32, l: Lead) -> Result<(u32, usize), Malformed>
    requires { (v < 128) × (128 ≤ l.lo) }
    ensures { (result ≡ conts 2 l.lo l.hi v 1 (drop 1 s.now)) × Reached 532544 3 result }
{
    let (w, _) = further(s, 1, v, l.lo, l.hi)?;
    further(s, 2, w, 0x80, 0xBF)
}

// A value of four bytes: three, and the fourth is 80 to BF too. Asks for what the rows have.
fn four(s: &[u8], v: u32, l: Lead) -> Result<(u32, usize), Malformed>
    requires { (v < 128) × (128 ≤ l.lo) }
    ensures { result ≡ conts 3 l.lo l.hi v 1 (drop 1 s.now) }
{
    let (w, _) = three(s, v, l)?;
    further(s, 3, w, 0x80, 0xBF)
}

// What was read, but a noncharacter is no value: it is bad at k, the place of its last byte, since the bytes before that begin other values.
fn permitted_at(k: usize, r: Result<(u32, usize), Malformed>) -> Result<(u32, usize), Malformed>
    ensures { result ≡ permitted_at k r }
{
    let (v, l) = r?;
    if token::is_noncharacter(v) {
        return Err(Malformed::Bad(k));
    }
    Ok((v, l))
}

// The value at the front of some bytes, and its length; Cut where the bytes end too soon, Bad with the place of the first byte that no
// value has there: a value is well-formed, and no noncharacter. Noncharacters have three bytes or four.
#[tactic(auto, using(crate::proofs::Itself::itself))]
pub fn read_value(s: &[u8]) -> Result<(u32, usize), Malformed>
    ensures { result ≡ read_value s.now }
{
    if s.len() == 0 {
        return Err(Malformed::Cut);
    }
    let b = s[0];
    if b < 0x80 {
        return Ok((u32::from(b), 1));
    }
    let Some(l) = lead_of(b) else {
        return Err(Malformed::Bad(0));
    };
    let m = l.modulus;
    let v = u32::from(b % m);
    let n = l.len;
    match n {
        2 => return further(s, 1, v, l.lo, l.hi),
        3 => {
            let r = three(s, v, l);
            return permitted_at(2, r);
        }
        _ => {
            let r = four(s, v, l);
            return permitted_at(3, r);
        }
    }
}

// A value's key: its last byte.
pub fn key_of(v: u32) -> u32
    ensures { result ≡ utf8_key v }
{
    if v < 0x80 {
        return v;
    }
    0x80 + v % 64
}

// None where the value of three bytes b, x, y is a noncharacter, else 3. Asks for bytes of such a value.
#[tactic(auto, using(crate::proofs::Plain::three_among))]
fn three_permitted(b: u8, x: u8, y: u8) -> Option<usize>
    requires { (224 ≤ b) × (b < 240) × (128 ≤ x) × (x < 192) × (128 ≤ y) × (y < 192) }
    ensures { result ≡ pick (is_noncharacter ((b % 16 * 64 + (x - 128)) * 64 + (y - 128))) None (Some 3) }
{
    if b < 0xEF {
        return Some(3);
    }
    if x == 0xB7 {
        if y < 0x90 {
            return Some(3);
        }
        if y < 0xB0 {
            return None;
        }
        return Some(3);
    }
    if x == 0xBF {
        if y < 0xBE {
            return Some(3);
        }
        return None;
    }
    Some(3)
}

// None where the value of four bytes b, x, y, z is a noncharacter, else 4. Asks for bytes of such a value; b does not matter.
#[tactic(auto, using(crate::proofs::Plain::four_free))]
fn four_permitted(b: u8, x: u8, y: u8, z: u8) -> Option<usize>
    requires { (240 ≤ b) × (b < 245) × (128 ≤ x) × (x < 192) × (128 ≤ y) × (y < 192) × (128 ≤ z) × (z < 192) × (16 ≤ b % 8 * 64 + (x - 128)) }
    ensures { result ≡ pick (is_noncharacter (((b % 8 * 64 + (x - 128)) * 64 + (y - 128)) * 64 + (z - 128))) None (Some 4) }
{
    if z < 0xBE {
        return Some(4);
    }
    if y < 0xBF {
        return Some(4);
    }
    if x % 16 < 15 {
        return Some(4);
    }
    None
}

// The length N of a value at a place, whose first byte is b: None where it is not there whole, its last byte is `key`, or it is a noncharacter.
// Asks for b's row of Table 3-7, one of N bytes. Bounds are tested by ifs that return: by one Bool a check is slower (docs/DECISIONS.md, "Speed").
fn row_len<const N: usize>(s: &[u8], at: usize, b: u8, l: Lead, key: u32) -> Option<usize>
    requires { (at < length s.now) × (b ≡ get_or s.now at 0) × RowOf N b l }
    ensures { (result ≡ plain_len key (read_value (drop at s.now))) × IfSome result (λ l. at + l ≤ length s.now) }
{
    if s.len() < at + N {
        return None;
    }
    let x = s[at + 1];
    if x < l.lo {
        return None;
    }
    if l.hi < x {
        return None;
    }
    if N == 2 {
        if u32::from(x) == key {
            return None;
        }
        return Some(2);
    }
    let y = s[at + 2];
    if y < 0x80 {
        return None;
    }
    if 0xBF < y {
        return None;
    }
    if N == 3 {
        if u32::from(y) == key {
            return None;
        }
        return three_permitted(b, x, y);
    }
    let z = s[at + 3];
    if z < 0x80 {
        return None;
    }
    if 0xBF < z {
        return None;
    }
    if u32::from(z) == key {
        return None;
    }
    four_permitted(b, x, y, z)
}

// The length of the value at a place whose first byte b is 80 or above, without the value: None where no value stands there whole, or its key is
// `key`. Asks for such a byte there.
pub fn plain_len(s: &[u8], at: usize, b: u8, key: u32) -> Option<usize>
    requires { (at < length s.now) × (b ≡ get_or s.now at 0) × (128 ≤ b) }
    ensures { (result ≡ plain_len key (read_value (drop at s.now))) × IfSome result (λ l. at + l ≤ length s.now) }
{
    let l = lead_of(b)?;
    let n = l.len;
    match n {
        2 => row_len::<2>(s, at, b, l, key),
        3 => row_len::<3>(s, at, b, l, key),
        _ => row_len::<4>(s, at, b, l, key),
    }
}

// Whether a number is a Unicode scalar value: a code point that is no surrogate.
pub fn is_scalar(v: u32) -> bool
    ensures { result ≡ is_scalar v }
{
    if v < 0xD800 {
        return true;
    }
    if v < 0xE000 {
        return false;
    }
    v < 0x110000
}

// Whether a number is a value of a table in UTF-8: a scalar value that is no noncharacter.
pub fn is_utf8_value(v: u32) -> bool
    ensures { result ≡ is_utf8_value v }
{
    !token::is_noncharacter(v) && is_scalar(v)
}

// How many bytes a value has. Not `char::len_utf8`: this takes any number.
pub fn len_utf8(v: u32) -> usize
    ensures { (result ≡ length (utf8_bytes v)) × (result ≤ 4) }
{
    if v < 0x80 {
        return 1;
    }
    if v < 0x800 {
        return 2;
    }
    if v < 0x10000 {
        return 3;
    }
    4
}

// A value's bytes to the front, and how many they are. Asks for a scalar value and for room: the caller has tested both. Not `char::encode_utf8`: it
// says which text it lends back, and nothing of the buffer.
pub fn put_utf8(v: u32, out: &mut [u8]) -> usize
    requires { Scalar v × (length (utf8_bytes v) ≤ length out.old) }
    ensures { (result ≡ length (utf8_bytes v)) × (out.new ≡ over (utf8_bytes v) out.old) }
{
    if v < 0x80 {
        out[0] = v as u8;
        return 1;
    }
    if v < 0x800 {
        out[0] = (0xC0 + v / 64) as u8;
        out[1] = (0x80 + v % 64) as u8;
        return 2;
    }
    if v < 0x10000 {
        out[0] = (0xE0 + v / 4096) as u8;
        out[1] = (0x80 + v / 64 % 64) as u8;
        out[2] = (0x80 + v % 64) as u8;
        return 3;
    }
    out[0] = (0xF0 + v / 262144) as u8;
    out[1] = (0x80 + v / 4096 % 64) as u8;
    out[2] = (0x80 + v / 64 % 64) as u8;
    out[3] = (0x80 + v % 64) as u8;
    4
}
