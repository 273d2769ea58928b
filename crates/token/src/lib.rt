// Inner layer: one token of a table, whatever the coding, and the numbers that are values in none. Definitions: specs/Meaning.antt. The laws of a
// coding: proofs/Coded.antt and proofs/Stopping.antt.
#![tactic(auto)]

ghost use Rattle.std.specs.Prelude.{◌≡◌};
ghost use Rattle.token.specs.Reading.{behind, Fits, is_noncharacter};

// What stands in a table, end to end: a value, the mark that starts a sequence, the mark that ends a description.
#[derive(Clone, Copy, Debug, PartialEq, Eq)]
pub enum Token {
    Value(u32),
    Start,
    End,
}

// Why no token stands at the front of some bytes: they end too soon, or the place of the first byte that no token has there.
#[derive(Clone, Copy, Debug, PartialEq, Eq)]
pub enum Malformed {
    Cut,
    Bad(usize),
}

impl Malformed {
    // The same where the bytes stand behind `at` others: a place is counted from the front of those. Asks that it is a number.
    pub fn behind(self, at: usize) -> Malformed
        requires { Fits (behind at self) }
        ensures { result ≡ behind at self }
    {
        match self {
            Malformed::Cut => Malformed::Cut,
            Malformed::Bad(k) => Malformed::Bad(at + k),
        }
    }
}

// A token with the place after it, or why none stands there.
pub type Step = Result<(Token, usize), Malformed>;

// Whether a number is a noncharacter: FDD0 to FDEF, or one of the last two of a plane.
#[tactic(auto, using(crate::proofs::Noncharacters::under, crate::proofs::Noncharacters::among))]
pub fn is_noncharacter(v: u32) -> bool
    ensures { result ≡ is_noncharacter v }
{
    if v < 0xFDD0 {
        return false;
    }
    if v < 0xFDF0 {
        return true;
    }
    0xFFFE <= v % 0x10000
}
