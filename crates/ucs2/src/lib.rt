// Inner layer: one token at the front of some bytes, in PSF1's two-byte coding, and a value written. Definitions: specs/Meaning.antt,
// specs/Reading.antt.
#![tactic(auto)]

ghost use Rattle.std.specs.Prelude.{◌≡◌, ◌≤◌, length};
ghost use Rattle.base.specs.Reading.{over};
ghost use Rattle.ucs2.specs.Reading.{read_ucs2, is_word};
ghost use Rattle.ucs2.specs.Meaning.{Word, word_bytes};

use token::{Malformed, Step, Token};

// Whether a number is a value of PSF1's coding: 0000 to FFFD, surrogates included, that is no noncharacter.
pub fn is_word(v: u32) -> bool
    ensures { result ≡ is_word v }
{
    if token::is_noncharacter(v) {
        return false;
    }
    v < 0xFFFE
}

// The token at the front of some bytes: a value of two bytes, or a mark, FFFE that starts a sequence, FFFF that ends a
// description; Cut where fewer than two bytes are left; a noncharacter is Bad at its second byte, since its first begins other values.
#[tactic(auto, using(crate::proofs::Pairs::as_end, crate::proofs::Words::word_mark, crate::proofs::Pairs::as_bad, crate::proofs::Words::word_among))]
pub fn read_ucs2(s: &[u8]) -> Step
    ensures { result ≡ read_ucs2 s.now }
{
    if s.len() < 2 {
        return Err(Malformed::Cut);
    }
    let v = base::get16(s, 0);
    if v < 0xFDD0 {
        return Ok((Token::Value(v), 2));
    }
    if v == 0xFFFF {
        return Ok((Token::End, 2));
    }
    if v == 0xFFFE {
        return Ok((Token::Start, 2));
    }
    if v < 0xFDF0 {
        return Err(Malformed::Bad(1));
    }
    Ok((Token::Value(v), 2))
}

// A value's two bytes to the front, the low one first. Asks for a value of PSF1's coding and for room: the caller has tested both.
pub fn put_ucs2(v: u32, out: &mut [u8])
    requires { Word v × (2 ≤ length out.old) }
    ensures { out.new ≡ over (word_bytes v) out.old }
{
    out[0] = (v % 256) as u8;
    out[1] = (v / 256) as u8;
}
