// Inner layer: the line of a refusal, which both programs write. Definitions: specs/Meaning.antt.
#![tactic(auto)]

ghost use Rattle.std.specs.Prelude.{◌≡◌, ◌≤◌, length};
ghost use Rattle.base.specs.Reading.{over};
ghost use Rattle.words.specs.Meaning.{refused_text};

use refusal::Refusal;

// The line of a refusal. Asks for room for the longest: each caller has a buffer of 96 bytes. No `Display`: what it
// writes is ensured of a `String` alone, and nothing is allocated here.
#[tactic(auto, using(text::proofs::Putting::first_stands, text::proofs::Putting::behind_room, text::proofs::Putting::behind_stands, text::proofs::Digits::number_21))]
pub fn put_refused(r: Refusal, out: &mut [u8]) -> usize
    requires { 96 ≤ length out.old }
    ensures { (result ≡ length (refused_text r)) × (out.new ≡ over (refused_text r) out.old) × (result ≤ 96) }
{
    let a = text::put_text(b"refused ", out);
    // Not `as usize`: of it `put_number-requires-2` and `-3`, and the bounds of the parts lent there, are not found, with a law for 32 bits neither.
    let b = a + text::put_number(base::size(refusal::number(r.reason)), b' ', &mut out[a..]);
    let d = b + text::put_number(r.place, b' ', &mut out[b..]);
    d + text::put_number(r.glyph, b'\n', &mut out[d..])
}
