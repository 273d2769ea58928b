// Inner layer: the two codings of a table's values, as one, and values and marks written. Definitions: specs/Meaning.antt, specs/Reading.antt.
#![tactic(auto)]

ghost use Rattle.std.specs.Prelude.{◌≡◌, ◌≤◌, length};
ghost use Rattle.base.specs.Reading.{over};
ghost use Rattle.coding.specs.Reading.{mark_len, carries_of, key_of};
ghost use Rattle.coding.specs.Meaning.{ValueOf, value_bytes, start_bytes, end_bytes};

// PSF2 and vfont2 write values in UTF-8, PSF1 in two bytes. No trait with a type for each: the file's kind tells it at run time, so every caller
// would match to name the type, and a conversion from one coding to another four times, where these calls match once. Functions and no methods: each
// is one `match`, and the crate's name before it says what it is of.
#[derive(Clone, Copy, Debug, PartialEq, Eq)]
pub enum Coding {
    Utf8,
    Ucs2,
}

// How many bytes a start or end mark has.
pub fn mark_len(c: Coding) -> usize
    ensures { result ≡ mark_len c }
{
    match c {
        Coding::Utf8 => 1,
        Coding::Ucs2 => 2,
    }
}

// No value's key.
// An `Option<u32>` takes 1.06 to 1.08 of a check's instructions over values of two bytes or three (made-4096-two: 405,891 for 381,308).
pub const NO_KEY: u32 = 0x10000;

// A value's key, by which a loop over a table tells most values from one that is looked for without working them out: in UTF-8 the last byte, in
// two bytes the number itself.
pub fn key_of(c: Coding, v: u32) -> u32
    ensures { result ≡ key_of c v }
{
    match c {
        Coding::Utf8 => utf8::key_of(v),
        Coding::Ucs2 => v % 0x10000,
    }
}

// Whether a number is one of the coding's values.
pub fn carries(c: Coding, v: u32) -> bool
    ensures { result ≡ carries_of c v }
{
    match c {
        Coding::Utf8 => utf8::is_utf8_value(v),
        Coding::Ucs2 => ucs2::is_word(v),
    }
}

// How many bytes a value has.
pub fn value_len(c: Coding, v: u32) -> usize
    ensures { (result ≡ length (value_bytes c v)) × (result ≤ 4) }
{
    match c {
        Coding::Utf8 => utf8::len_utf8(v),
        Coding::Ucs2 => 2,
    }
}

// A value's bytes to the front. Asks for a value of the coding and for room: the caller has tested both.
pub fn put_value(c: Coding, v: u32, out: &mut [u8]) -> usize
    requires { ValueOf c v × (length (value_bytes c v) ≤ length out.old) }
    ensures { (result ≡ length (value_bytes c v)) × (out.new ≡ over (value_bytes c v) out.old) }
{
    match c {
        Coding::Utf8 => utf8::put_utf8(v, out),
        Coding::Ucs2 => {
            ucs2::put_ucs2(v, out);
            2
        }
    }
}

// A start mark to the front. Asks for room: the caller has worked out the size.
pub fn put_start(c: Coding, out: &mut [u8]) -> usize
    requires { length (start_bytes c) ≤ length out.old }
    ensures { (result ≡ length (start_bytes c)) × (out.new ≡ over (start_bytes c) out.old) }
{
    match c {
        Coding::Utf8 => {
            out[0] = 0xFE;
            1
        }
        Coding::Ucs2 => {
            out[0] = 0xFE;
            out[1] = 0xFF;
            2
        }
    }
}

// An end mark to the front. Asks for room: the caller has worked out the size.
pub fn put_end(c: Coding, out: &mut [u8]) -> usize
    requires { length (end_bytes c) ≤ length out.old }
    ensures { (result ≡ length (end_bytes c)) × (out.new ≡ over (end_bytes c) out.old) }
{
    match c {
        Coding::Utf8 => {
            out[0] = 0xFF;
            1
        }
        Coding::Ucs2 => {
            out[0] = 0xFF;
            out[1] = 0xFF;
            2
        }
    }
}
