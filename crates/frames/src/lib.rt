// The input of the program `fontload`, fed by chunks and never held whole: lines of hexadecimal, each one piece of a font for the loader.
// Definitions: specs/Meaning.antt (lines, what is answered), specs/Reading.antt (how the state goes on).
#![tactic(auto)]

ghost use Rattle.std.specs.Prelude.{◌≡◌, true, ◌≤◌, ◌<◌, length, IfSome, IsNone};
ghost use Rattle.frames.specs.Meaning.{outcome_text, output_of};
ghost use Rattle.frames.specs.Reading.{counted_of, held_frame, fresh_of, ended_of, with_of, byte_of, fed_of, last_of, closed_of};
ghost use Rattle.frames.specs.declared.Failure.TheVariants.{Refused};

use hexline::Frame;
use loader::Loader;
use refusal::{Reason, Refusal};

// The limit of the input.
pub const LIMIT: usize = 4194304;

// The state of the input. Counts go to one more than the limit and stop there.
#[derive(Clone, Copy)]
pub struct Frames {
    // the pieces so far
    pub loader: Loader,
    // the line that is not ended: its first characters, in an array, since nothing is allocated; and how many there are, 129 for more than 128
    // (stays: this count stops one past its limit as the other two do, and an Option, which each character would have to open, is no plainer)
    pub line: [u8; 128],
    pub len: usize,
    // how many lines were ended
    pub ended: usize,
    // the number of the first bad line
    pub bad: Option<usize>,
    // how many bytes were taken
    pub taken: usize,
}

// Why the program does not answer `sound`.
#[derive(Clone, Copy)]
pub enum Failure {
    Refused(Refusal),
    TooBig,
}

impl From<Refusal> for Failure {
    ghost from_gives = { λ r x. x ≡ Refused r };

    fn from(r: Refusal) -> Failure {
        Failure::Refused(r)
    }
}

// A line of output: so many bytes, which stand in front with zeros behind them: an array, since nothing is allocated.
#[derive(Clone, Copy)]
pub struct Output {
    pub len: usize,
    pub bytes: [u8; 96],
}

// One more, up to one more than the limit.
#[tactic(auto, unfolding(crate::specs::Reading::counted_of, base::specs::Reading::when))]
fn counted(n: usize) -> usize
    ensures { result ≡ counted_of n }
{
    if n < LIMIT + 1 {
        return n + 1;
    }
    n
}

// Before any input.
#[tactic(auto, unfolding(crate::specs::Reading::fresh_of))]
pub fn fresh() -> Frames
    ensures { result ≡ fresh_of }
{
    Frames {
        loader: loader::fresh(),
        line: [0u8; 128],
        len: 0,
        ended: 0,
        bad: None,
        taken: 0,
    }
}

// The line that is held as a frame; none for a bad line.
#[tactic(auto, using(crate::proofs::Held::held_long, crate::proofs::Held::held_short))]
fn held_frame(line: [u8; 128], len: usize) -> Option<Frame>
    ensures equal { result ≡ held_frame line len }
    ensures bounded { IfSome result (λ f. (f.len ≤ 64) × (length f.bytes ≡ 64)) }
{
    if 128 < len {
        return None;
    }
    hexline::read_line(&line[..len])
}

// The end of a line: its bytes are one piece, or it is the first bad one.
#[tactic(auto, using(crate::proofs::Ended::good_ended, crate::proofs::Ended::bad_ended))]
fn end_line(f: Frames) -> Frames
    ensures { result ≡ ended_of f }
{
    let mut next = f;
    next.len = 0;
    next.ended = counted(f.ended);
    match held_frame(f.line, f.len) {
        Some(frame) => next.loader = loader::fed(f.loader, &frame.bytes[..frame.len]),
        None => next.bad = Some(next.ended),
    }
    next
}

// One more character of a line.
#[tactic(auto, using(crate::proofs::Held::with_short, crate::proofs::Held::with_long))]
fn with_char(f: Frames, b: u8) -> Frames
    ensures { result ≡ with_of f b }
{
    let mut next = f;
    if f.len < 128 {
        next.line[f.len] = b;
        next.len = f.len + 1;
        return next;
    }
    next.len = 129;
    next
}

// One byte of input. Behind a bad line nothing is read, and behind the limit it is only counted.
#[tactic(auto, using(crate::proofs::Ended::took_as, crate::proofs::Feeding::byte_bad, crate::proofs::Feeding::byte_full, crate::proofs::Feeding::byte_newline, crate::proofs::Feeding::byte_char))]
fn byte(f: Frames, b: u8) -> Frames
    ensures { result ≡ byte_of f b }
{
    if f.bad.is_some() {
        return f;
    }
    let mut next = f;
    next.taken = counted(f.taken);
    if LIMIT <= f.taken {
        return next;
    }
    if b == b'\n' {
        return end_line(next);
    }
    with_char(next, b)
}

// Whether a byte is surely one more character of the line that is held.
fn is_char(b: u8, len: usize, bad: Option<usize>, taken: usize) -> bool
    ensures { result ≡ true → IsNone bad × (taken < 4194304) × (len < 128) × (b ≡ 10 → ⊥) }
{
    bad.is_none() && taken < LIMIT && len < 128 && b != b'\n'
}

// A chunk of input, of any length. The line that is held goes by variables, so that a character costs one store.
#[tactic(auto, using(crate::proofs::Chars::char_byte, crate::proofs::Feeding::next, crate::proofs::Feeding::ended))]
pub fn fed(f: Frames, chunk: &[u8]) -> Frames
    ensures { result ≡ fed_of f chunk.now }
{
    let mut state = f;
    let mut line = f.line;
    let mut len = f.len;
    let mut taken = f.taken;
    for &b in chunk {
        if is_char(b, len, state.bad, taken) {
            line[len] = b;
            len += 1;
            taken += 1;
        } else {
            state.line = line;
            state.len = len;
            state.taken = taken;
            state = byte(state, b);
            line = state.line;
            len = state.len;
            taken = state.taken;
        }
    }
    state.line = line;
    state.len = len;
    state.taken = taken;
    state
}

// The answer where all lines are ended.
#[tactic(auto, using(crate::proofs::Feeding::last_bad, crate::proofs::Feeding::last_good))]
fn last(f: Frames) -> Result<(), Failure>
    ensures { result ≡ last_of f }
{
    if let Some(n) = f.bad {
        return Err(Failure::Refused(refusal::refuse(Reason::Line, n)));
    }
    loader::closed_answer(f.loader)?;
    Ok(())
}

// The answer where the input ends. Refusals: LINE, place the first bad line's number, and those of the loader.
#[tactic(auto, using(crate::proofs::Feeding::closed_bad, crate::proofs::Feeding::closed_full, crate::proofs::Feeding::closed_last))]
pub fn close(f: Frames) -> Result<(), Failure>
    ensures { result ≡ closed_of f }
{
    if f.bad.is_some() {
        return last(f);
    }
    if LIMIT < f.taken {
        return Err(Failure::TooBig);
    }
    last(end_line(f))
}

// An answer as the program's line.
pub fn written(o: Result<(), Failure>) -> Output
    ensures equal { result ≡ output_of (outcome_text o) }
    ensures bounded { (result.len ≤ 96) × (length result.bytes ≡ 96) }
{
    let mut bytes = [0u8; 96];
    let len = match o {
        Ok(()) => text::put_text(b"sound\n", &mut bytes),
        Err(Failure::Refused(r)) => words::put_refused(r, &mut bytes),
        Err(Failure::TooBig) => text::put_text(b"too big\n", &mut bytes),
    };
    Output { len, bytes }
}
