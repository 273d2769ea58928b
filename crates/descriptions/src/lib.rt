// Inner layer: two descriptions compared, item by item, side by side, each in its own coding. Definitions: specs/Reading.antt. They hold on
// any tails, as far as they can be read.
#![tactic(auto)]

ghost use Rattle.std.specs.Prelude.{◌≡◌, ◌≤◌, length};
ghost use Rattle.token.specs.Reading.{same_token};
ghost use Rattle.token.specs.declared.Token.TheVariants.{End as TokenEnd};
ghost use Rattle.descriptions.specs.Reading.{token_of, next_of, end_at, ends_of};

use coding::Coding;
use table::Steps;
use token::{Step, Token};

// Whether two descriptions have the same items, and the places after them.
#[derive(Clone, Copy)]
pub struct Ends {
    pub same: bool,
    pub first: usize,
    pub second: usize,
}

// The token of a step; where reading stops, a description ends as at an end mark.
fn token_of(step: Step) -> Token
    ensures { result ≡ token_of step }
{
    match step {
        Ok((token, _)) => token,
        Err(_) => Token::End,
    }
}

// Whether two steps have the same token.
fn alike(x: Step, y: Step) -> bool
    ensures { result ≡ same_token (token_of x) (token_of y) }
{
    token_of(x) == token_of(y)
}

// Whether a description ends at a step.
fn is_end(x: Step) -> bool
    ensures { result ≡ same_token (token_of x) TokenEnd }
{
    token_of(x) == Token::End
}

// The place after a step that stands at `at`.
fn next_of(at: usize, t: Step) -> usize
    ensures { result ≡ next_of at t }
{
    match t {
        Ok((_, next)) => next,
        Err(_) => at,
    }
}

// The place after the description that is read from `start` on. Asks for a place of the tail: each caller has read up to there.
fn description_end(c: Coding, tail: &[u8], start: usize) -> usize
    requires { start ≤ length tail.now }
    ensures { (result ≡ end_at c tail.now start) × (result ≤ length tail.now) }
{
    let mut at = start;
    for step in Steps::new(c, tail, start) {
        let next = next_of(at, step);
        if is_end(step) {
            return next;
        }
        at = next;
    }
    at
}

// The descriptions from `from` on in s and from `start` on in t: whether they have the same items, and the places after them. One pass over
// both; what is left of either after the first item that differs is passed over. Asks for places of the tails: a description starts there.
pub fn compare(c: Coding, s: &[u8], from: usize, d: Coding, t: &[u8], start: usize) -> Ends
    requires { (from ≤ length s.now) × (start ≤ length t.now) }
    ensures equal { result ≡ ends_of c s.now from d t.now start }
    ensures bounded { (result.first ≤ length s.now) × (result.second ≤ length t.now) }
{
    let mut a = from;
    let mut b = start;
    // Stepped by hand, no `zip`: which of the two walks has ended would be lost.
    let mut others = Steps::new(d, t, start);
    for x in Steps::new(c, s, from) {
        let Some(y) = others.next() else {
            return Ends {
                same: true,
                first: description_end(c, s, a),
                second: b,
            };
        };
        if !alike(x, y) {
            return Ends {
                same: false,
                first: description_end(c, s, a),
                second: description_end(d, t, b),
            };
        }
        a = next_of(a, x);
        b = next_of(b, y);
        if is_end(x) {
            return Ends {
                same: true,
                first: a,
                second: b,
            };
        }
    }
    Ends {
        same: true,
        first: a,
        second: description_end(d, t, b),
    }
}
