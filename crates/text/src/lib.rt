// Inner layer: texts written to the front of a buffer: bytes, and numbers in a radix. Definitions: specs/Meaning.antt, specs/Reading.antt.
// Each writer asks for room: the callers have measured. No `Display` and no `write!`: what they write is ensured of a `String` alone, and nothing is
// allocated here.
#![tactic(auto)]

ghost use Rattle.std.specs.Prelude.{◌≡◌, [], ◌∷◌, ◌≤◌, ◌<◌, length};
ghost use Rattle.base.specs.Reading.{over};
ghost use Rattle.text.specs.Meaning.{number_text};
ghost use Rattle.text.specs.Reading.{digit_of, numeral};

// A digit up to F. Asks that it is one: each caller has divided.
#[tactic(auto, unfolding(crate::specs::Reading::digit_of))]
fn digit(d: u8) -> u8
    requires { d < 16 }
    ensures { result ≡ digit_of d }
{
    match d {
        0..=9 => b'0' + d,
        _ => b'A' + (d - 10),
    }
}

// How many digits a number has in a radix. Asks for a radix: each caller names 10 or 16.
pub fn numeral_len(radix: usize, n: usize) -> usize
    requires { 2 ≤ radix }
    ensures { (result ≡ length (numeral radix n)) × (result ≤ 64) }
{
    let mut k: usize = 1;
    let mut m = n;
    // A `while`, since no index is counted: the number is divided until one digit is left, and a `for` with a bound and a `return` is no plainer.
    while radix <= m {
        m = m / radix;
        k += 1;
    }
    k
}

// A number to the front, in a radix that has digits, and how many bytes it is. Asks for such a radix, each caller names 10 or 16, and
// for room: the caller has measured.
#[tactic(auto, using(crate::proofs::Digits::length_one, crate::proofs::Digits::length_more, crate::proofs::Digits::divided, crate::proofs::Digits::numeral_one, crate::proofs::Digits::numeral_more, crate::proofs::Putting::put_one, crate::proofs::Putting::put_more, base::proofs::Over::length_over))]
pub fn put_numeral(radix: usize, n: usize, out: &mut [u8]) -> usize
    requires { (2 ≤ radix) × (radix ≤ 16) × (length (numeral radix n) ≤ length out.old) }
    ensures { (result ≡ length (numeral radix n)) × (out.new ≡ over (numeral radix n) out.old) }
{
    if n < radix {
        out[0] = digit(n as u8);
        return 1;
    }
    let l = put_numeral(radix, n / radix, out);
    out[l] = digit((n % radix) as u8);
    l + 1
}

// A text to the front, and how many bytes it is. Asks for room: the caller has measured.
pub fn put_text(text: &[u8], out: &mut [u8]) -> usize
    requires { length text.now ≤ length out.old }
    ensures { (result ≡ length text.now) × (out.new ≡ over text.now out.old) }
{
    base::copy(text, out);
    text.len()
}

// A number and the byte after it to the front, and how many bytes they are. Asks for room: the caller has measured.
#[tactic(auto, using(crate::proofs::Putting::put_more, crate::proofs::Digits::number_text_lem, crate::proofs::Digits::number_length, base::proofs::Over::length_over))]
pub fn put_number(n: usize, after: u8, out: &mut [u8]) -> usize
    requires { length (number_text n after) ≤ length out.old }
    ensures { (result ≡ length (number_text n after)) × (out.new ≡ over (number_text n after) out.old) }
{
    let l = put_numeral(10, n, out);
    out[l] = after;
    l + 1
}

// One byte to the front. Asks for room: the caller has measured.
#[tactic(auto, using(crate::proofs::Putting::put_one))]
pub fn put_byte(b: u8, out: &mut [u8]) -> usize
    requires { length (b ∷ []) ≤ length out.old }
    ensures { (result ≡ length (b ∷ [])) × (out.new ≡ over (b ∷ []) out.old) }
{
    out[0] = b;
    1
}

// A byte and a value behind it to the front, and how many bytes they are. Asks for room: the caller has measured.
pub fn put_value(lead: u8, v: u32, out: &mut [u8]) -> usize
    requires { length (lead ∷ numeral 16 v) ≤ length out.old }
    ensures { (result ≡ length (lead ∷ numeral 16 v)) × (out.new ≡ over (lead ∷ numeral 16 v) out.old) }
{
    let a = put_byte(lead, out);
    let l = put_numeral(16, v as usize, &mut out[a..]);
    a + l
}
