// Inner layer: a Unicode table, fed part by part. Each value and mark is read by the reader of the whole-file check, from the part itself
// where it stands there whole, else from the bytes held with the first of the part. Definitions: specs/Reading.antt.
#![tactic(auto)]

ghost use Rattle.std.specs.Prelude.{◌≡◌, ◌+◌, ◌-◌, ◌≤◌, ◌<◌, length};
ghost use Rattle.table.specs.Reading.{steps_at};
ghost use Rattle.tablefeed.specs.declared.Halt.TheVariants.{Bad as TableBad};
ghost use Rattle.tablefeed.specs.Reading.{going, stopped, unread, run_of, flag_of, is_set, halt_number, settled, table_fed};
ghost use Rattle.tablefeed.specs.Bounds.{Resting};

use coding::Coding;
use table::Steps;
use token::{Malformed, Token};
use unfinished::Held;

// How far a table has been read: the descriptions complete, 1 just after a start mark (else 0); 0, or the number of the refusal that it has
// met; and its place in the file, or that of the first byte that is read with those that follow. Numbers alone, since they stand in the record
// that C keeps (`loader::Loader`): a bool or an enum there could be none.
#[repr(C)]
#[derive(Clone, Copy)]
pub struct Standing {
    pub ended: usize,
    pub opened: usize,
    pub halted: usize,
    pub place: usize,
}

// Why reading stops for good, by the number of the refusal.
#[derive(Clone, Copy, Debug, PartialEq, Eq)]
pub enum Halt {
    Bad = 11,
    Trailing = 12,
}

// The same within some bytes, its place counted there.
#[derive(Clone, Copy)]
pub struct Run {
    pub ended: usize,
    pub opened: bool,
    pub halted: Option<Halt>,
    pub place: usize,
}

// How far it has been read after a part, and the bytes of the value or mark that it left unfinished.
#[derive(Clone, Copy)]
pub struct Fed {
    pub held: Held,
    pub standing: Standing,
}

// Before the first byte.
pub fn unread() -> Standing
    ensures { (result.ended ≡ 0) × (result.opened ≡ 0) × (result.halted ≡ 0) × (result.place ≡ 0) }
{
    Standing {
        ended: 0,
        opened: 0,
        halted: 0,
        place: 0,
    }
}

// Read up to a place.
fn going_at(g: usize, opened: bool, at: usize) -> Run
    ensures { result ≡ going g opened at }
{
    Run {
        ended: g,
        opened: opened,
        halted: None,
        place: at,
    }
}

// Refused at a place.
fn stopped_at(why: Halt, g: usize, at: usize) -> Run
    ensures { result ≡ stopped why g at }
{
    Run {
        ended: g,
        opened: false,
        halted: Some(why),
        place: at,
    }
}

// A mark that ends at `next` where a value must stand. Asks for a place: a mark stands before it.
fn misplaced(g: usize, next: usize) -> Run
    requires { 1 ≤ next }
    ensures { result ≡ stopped TableBad g (next - 1) }
{
    stopped_at(Halt::Bad, g, next - 1)
}

// Where nothing can be read at a place: what is cut there is read again with the bytes that follow, anything else is refused.
fn unread_at(m: Malformed, g: usize, opened: bool, at: usize) -> Run
    ensures { result ≡ unread g opened at m }
{
    match m {
        Malformed::Cut => going_at(g, opened, at),
        Malformed::Bad(k) => stopped_at(Halt::Bad, g, k),
    }
}

// Whole values and marks of s from `start` on, of a table of n descriptions.
fn run_through(c: Coding, s: &[u8], start: usize, n: usize, ended: usize, opened: bool) -> Run
    ensures { result ≡ run_of ended (n - ended) opened start (steps_at c s.now start) }
{
    let mut g = ended;
    let mut after = opened;
    let mut at = start;
    let mut steps = Steps::new(c, s, start);
    // It counts descriptions, no index. Tested before a step is taken, the count costs less than behind it: docs/DECISIONS.md, "Speed".
    while g < n {
        let Some(step) = steps.next() else {
            return going_at(g, after, at);
        };
        let (token, next) = match step {
            Ok(read) => read,
            Err(m) => return unread_at(m, g, after, at),
        };
        match token {
            Token::Value(_) => after = false,
            Token::Start => {
                if after {
                    return misplaced(g, next);
                }
                after = true;
            }
            Token::End => {
                if after {
                    return misplaced(g, next);
                }
                g += 1;
            }
        }
        at = next;
    }
    if at < s.len() {
        return stopped_at(Halt::Trailing, g, at);
    }
    going_at(g, after, at)
}

#[tactic(auto, unfolding(crate::specs::Reading::flag_of))]
fn flag_of(b: bool) -> usize
    ensures { result ≡ flag_of b }
{
    usize::from(b)
}

// The number of the refusal that a run has met, 0 for none.
fn halt_number(halted: Option<Halt>) -> usize
    ensures { result ≡ halt_number halted }
{
    match halted {
        None => 0,
        Some(why) => why as usize,
    }
}

fn is_set(n: usize) -> bool
    ensures { result ≡ is_set n }
{
    n != 0
}

// How far s has been read, which begins at `at` in the file; its unfinished bytes are held. Asks for a place within s, with at most three
// bytes behind it where it goes on, and for bytes within the file limit: the callers have run through s.
fn settle(s: &[u8], at: usize, r: Run) -> Fed
    requires { Resting s.now r × (at + length s.now ≤ 1048576) }
    ensures { result ≡ settled s.now at r }
{
    let place = r.place;
    let opened = r.opened;
    let standing = Standing {
        ended: r.ended,
        opened: flag_of(opened),
        halted: halt_number(r.halted),
        place: at + place,
    };
    if r.halted.is_some() {
        return Fed {
            held: Held::none(),
            standing: standing,
        };
    }
    Fed {
        held: Held::hold(&s[place..]),
        standing: standing,
    }
}

// A part behind bytes that are held: what begins in them is read first, from them and the first three bytes of the part. Asks for what
// `feed` asks for.
fn behind_held(c: Coding, n: usize, at: usize, h: Held, t: Standing, part: &[u8]) -> Fed
    requires { (t.halted ≡ 0) × (h.len < 18) × (h.len < at) × (at + length part.now ≤ 1048576) }
    ensures { result ≡ table_fed c n at h t part.now }
{
    let k = h.len;
    let m = part.len().min(3);
    let joined = h.put(&part[..m]);
    let bytes = joined.bytes;
    let end = k + m;
    let r = run_through(c, &bytes[..end], 0, n, t.ended, is_set(t.opened));
    if r.halted.is_some() {
        return settle(&bytes[..end], at - k, r);
    }
    if r.place < k {
        return settle(&bytes[..end], at - k, r);
    }
    let x = run_through(c, part, r.place - k, n, r.ended, r.opened);
    settle(part, at, x)
}

// A part of the table, whose first byte stands at `at` in the file, behind the bytes held; n descriptions are wanted. No type says what is asked of
// the bytes held: they stand in the record that C keeps, which may hold anything, so the loader tests them. Asks for fewer bytes
// held than an entry has, and for a part within the file limit: the loader has tested both.
pub fn feed(c: Coding, n: usize, at: usize, h: Held, t: Standing, part: &[u8]) -> Fed
    requires { (h.len < 18) × (h.len < at) × (at + length part.now ≤ 1048576) }
    ensures { result ≡ table_fed c n at h t part.now }
{
    if t.halted != 0 {
        return Fed {
            held: h,
            standing: t,
        };
    }
    if h.len == 0 {
        let r = run_through(c, part, 0, n, t.ended, is_set(t.opened));
        return settle(part, at, r);
    }
    behind_held(c, n, at, h, t, part)
}
