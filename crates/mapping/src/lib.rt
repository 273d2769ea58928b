// Inner layer: where a glyph's description lists a value as a single, or where its singles end. Definitions: specs/Meaning.antt (a single
// added and dropped), specs/Reading.antt (the places). They hold on any tail, as far as it can be read.
#![tactic(auto)]

ghost use Rattle.std.specs.Prelude.{◌≡◌, ◌≤◌, length};
ghost use Rattle.table.specs.Reading.{steps_at};
ghost use Rattle.mapping.specs.Reading.{single_from, description_at, mapping_of};
ghost use Rattle.mapping.specs.Bounds.{MappingWithin};

use coding::Coding;
use table::Steps;
use token::Token;

// Where a value is listed as a single, and the place after it; or where the singles end, which do not have it.
#[derive(Clone, Copy)]
pub enum Mapping {
    Listed(usize, usize),
    Unlisted(usize),
}

// Where description g starts.
#[tactic(auto, using(crate::proofs::Walking::here), unfolding(crate::specs::Reading::description_at))]
fn description_start(c: Coding, tail: &[u8], g: usize) -> usize
    ensures { (result ≡ description_at c g tail.now) × (result ≤ length tail.now) }
{
    let mut left = g;
    let mut at: usize = 0;
    let mut steps = Steps::new(c, tail, 0);
    // It counts descriptions, no index, and tests before the next step is taken (docs/DECISIONS.md, "Speed").
    while left != 0 {
        let Some(step) = steps.next() else {
            return at;
        };
        let Ok((token, next)) = step else {
            return at;
        };
        match token {
            Token::End => left -= 1,
            _ => {}
        }
        at = next;
    }
    at
}

// The first v among the values from `start` up to the next mark. Asks that the place is one of the tail's: a description starts there.
fn find_single(c: Coding, tail: &[u8], start: usize, v: u32) -> Mapping
    requires { start ≤ length tail.now }
    ensures equal { result ≡ single_from v start (steps_at c tail.now start) }
    ensures bounded { MappingWithin (length tail.now) result }
{
    let mut at = start;
    for step in Steps::new(c, tail, start) {
        let Some((w, next)) = table::value_of(step) else {
            return Mapping::Unlisted(at);
        };
        if w == v {
            return Mapping::Listed(at, next);
        }
        at = next;
    }
    Mapping::Unlisted(at)
}

// Where glyph g lists v as a single, or its singles end: one pass up to there.
pub fn locate(c: Coding, tail: &[u8], g: usize, v: u32) -> Mapping
    ensures equal { result ≡ mapping_of c g v tail.now }
    ensures bounded { MappingWithin (length tail.now) result }
{
    let start = description_start(c, tail, g);
    find_single(c, tail, start, v)
}
