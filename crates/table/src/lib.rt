// Inner layer: the table, n descriptions end to end, in either coding. Definitions: specs/Meaning.antt (what a table is),
// specs/Reading.antt (its items one by one, and what the check answers), specs/Skipping.antt (going over it without its values).
#![tactic(auto)]

ghost use Rattle.std.specs.Prelude.{◌≡◌, ◌-◌, ◌≤◌, ◌<◌, length, false, Ok};
ghost use Rattle.coding.specs.declared.Coding.TheVariants.{Utf8, Ucs2};
ghost use Rattle.coding.specs.Reading.{no_key};
ghost use Rattle.token.specs.declared.Token.TheVariants.{Value as TokenValue};
ghost use Rattle.table.specs.Reading.{is_end, value_of, step_of, step_at, value_item, table_of};
ghost use Rattle.table.specs.Bounds.{StepFits, StepSays};
ghost use Rattle.table.specs.Walking.{Begins, WalksOn, bytes_left, items_left};
ghost use Rattle.std.specs.Iterator.{YieldsFirst};
ghost use Rattle.table.specs.Skipping.{plain_of, cursor_of, Stands, front_at, skipped, ended_of, NoValue, refused_of, answer_at, check_at};

use coding::Coding;
use token::{Malformed, Step, Token};

// What stands in a description, one after the other: a single value, a start mark, a value in a sequence, the end mark.
#[derive(Clone, Copy, Debug, PartialEq, Eq)]
pub enum Item {
    Single(u32),
    Start,
    Value(u32),
    End,
}

impl Item {
    // Whether it ends its description.
    pub fn is_end(self) -> bool
        ensures { result ≡ is_end self }
    {
        matches!(self, Item::End)
    }
}

// What was read at a place, its places counted from the front. Asks that these are numbers: they stand within the bytes that it was read from.
fn step_of(at: usize, r: Step) -> Step
    requires { StepFits (step_of at r) }
    ensures { result ≡ step_of at r }
{
    match r {
        Ok((t, l)) => Ok((t, at + l)),
        Err(m) => Err(m.behind(at)),
    }
}

// The step in UTF-8, by its first byte where that decides; else it is a value's. It and `ucs2_step`, as the two of `plain` and of `refused`, have
// nothing in common but what they are asked: one goes by a first byte, the other by a number of two bytes.
fn utf8_step(s: &[u8], at: usize) -> Step
    ensures { (result ≡ step_at Utf8 s.now at) × StepSays Utf8 s.now at result }
{
    if s.len() <= at {
        return Err(Malformed::Cut);
    }
    let b = s[at];
    if b < 0x80 {
        return Ok((Token::Value(u32::from(b)), at + 1));
    }
    if b == 0xFF {
        return Ok((Token::End, at + 1));
    }
    if b == 0xFE {
        return Ok((Token::Start, at + 1));
    }
    let r = utf8::read_value(&s[at..]);
    match r {
        Ok((v, l)) => Ok((Token::Value(v), at + l)),
        Err(m) => Err(m.behind(at)),
    }
}

// The step in two bytes.
fn ucs2_step(s: &[u8], at: usize) -> Step
    ensures { (result ≡ step_at Ucs2 s.now at) × StepSays Ucs2 s.now at result }
{
    if s.len() <= at {
        return Err(Malformed::Cut);
    }
    let r = ucs2::read_ucs2(&s[at..]);
    step_of(at, r)
}

// The step from a place on; `Cut` from the end on. The place after it is past `at` and within the bytes. It is small enough for the compiler to
// put into every loop that takes it: values of one byte and marks, and all of PSF1, are read there, and only a longer value of UTF-8 costs a call
// (docs/DECISIONS.md, "Speed").
pub fn step_at(c: Coding, s: &[u8], at: usize) -> Step
    ensures { (result ≡ step_at c s.now at) × StepSays c s.now at result }
{
    match c {
        Coding::Utf8 => utf8_step(s, at),
        Coding::Ucs2 => ucs2_step(s, at),
    }
}

// The value of a step, and the place after it, if it is a value's.
pub fn value_of(step: Step) -> Option<(u32, usize)>
    ensures { result ≡ value_of step }
{
    let (token, next) = step.ok()?;
    match token {
        Token::Value(v) => Some((v, next)),
        _ => None,
    }
}

// A walk over a tail from a place on: each token with the place after it, and last why none could be read, where it ends so. Calls take a coding and
// a tail, no struct of both: a contract would read `t.entry.coding` and `t.entry.bytes.now` where it reads `c` and `tail.now`.
#[derive(Clone, Copy, Drop)]
pub struct Steps<'a> {
    pub coding: Coding,
    pub tail: &'a [u8],
    pub at: usize,
}

impl<'a> Steps<'a> {
    // The walk from a place on.
    pub fn new(c: Coding, tail: &'a [u8], at: usize) -> Steps<'a>
        ensures { Begins c tail.now at result }
    {
        Steps {
            coding: c,
            tail: tail,
            at: at,
        }
    }
}

impl<'a> Iterator for Steps<'a> {
    type Item = Step;

    ghost next_gives = { WalksOn };

    ghost remaining = { bytes_left };

    fn next(&mut self) -> Option<Step> {
        if self.tail.len() <= self.at {
            return None;
        }
        let step = step_at(self.coding, self.tail, self.at);
        self.at = match step {
            Ok((_, next)) => next,
            Err(_) => self.tail.len(),
        };
        Some(step)
    }
}

// A value as an item: before the first start mark of its description it is a single.
pub fn value_item(inside: bool, v: u32) -> Item
    ensures { result ≡ value_item inside v }
{
    if inside {
        return Item::Value(v);
    }
    Item::Single(v)
}

// A walk over a tail from its front, item by item, as far as it can be read.
#[derive(Clone, Copy, Drop)]
pub struct Items<'a> {
    pub steps: Steps<'a>,
    pub inside: bool,
}

impl<'a> Items<'a> {
    // The walk from the front.
    pub fn new(c: Coding, tail: &'a [u8]) -> Items<'a>
        ensures { Begins c tail.now 0 result.steps × (result.inside ≡ false) }
    {
        Items {
            steps: Steps::new(c, tail, 0),
            inside: false,
        }
    }
}

impl<'a> Iterator for Items<'a> {
    type Item = Item;

    ghost next_gives = { YieldsFirst items_left };

    ghost remaining = { λ w. bytes_left w.steps };

    fn next(&mut self) -> Option<Item> {
        let step = self.steps.next()?;
        let Ok((token, _)) = step else {
            return None;
        };
        match token {
            Token::Value(v) => Some(value_item(self.inside, v)),
            Token::Start => {
                self.inside = true;
                Some(Item::Start)
            }
            Token::End => {
                self.inside = false;
                Some(Item::End)
            }
        }
    }
}

// Why a tail is no table. Places are counted from the table's first byte; Cut and Bad also tell how many descriptions are complete before
// the place, which is the glyph whose description is being read there.
#[derive(Clone, Copy, Debug, PartialEq, Eq)]
pub enum Fault {
    Cut(usize, usize),
    Bad(usize, usize),
    Trailing(usize),
}

// What plainly stands at a place, and the place after it; Other where reading has to look closer: at a value with a key that is asked for, and where
// nothing can be read. No `Option`: it would be one of a pair, with an enum more for the three that are left.
#[derive(Clone, Copy)]
pub enum Plain {
    Value(usize),
    Start(usize),
    End(usize),
    Other,
}

// What plainly stands at a place in UTF-8: no value is worked out. Asks for a place within the bytes.
fn utf8_plain(s: &[u8], at: usize, key: u32) -> Plain
    requires { at < length s.now }
    ensures { (result ≡ plain_of Utf8 key (step_at Utf8 s.now at)) × StepSays Utf8 s.now at (step_at Utf8 s.now at) }
{
    let b = s[at];
    if b < 0x80 {
        if u32::from(b) == key {
            return Plain::Other;
        }
        return Plain::Value(at + 1);
    }
    if b == 0xFF {
        return Plain::End(at + 1);
    }
    if b == 0xFE {
        return Plain::Start(at + 1);
    }
    let Some(l) = utf8::plain_len(s, at, b, key) else {
        return Plain::Other;
    };
    Plain::Value(at + l)
}

// A value of two bytes by its key.
fn word_plain(key: u32, v: u32, next: usize) -> Plain
    ensures { result ≡ plain_of Ucs2 key (Ok (TokenValue v, next)) }
{
    if coding::key_of(Coding::Ucs2, v) == key {
        return Plain::Other;
    }
    Plain::Value(next)
}

// What plainly stands at a place in two bytes. Asks for a place within the bytes.
fn ucs2_plain(s: &[u8], at: usize, key: u32) -> Plain
    requires { at < length s.now }
    ensures { (result ≡ plain_of Ucs2 key (step_at Ucs2 s.now at)) × StepSays Ucs2 s.now at (step_at Ucs2 s.now at) }
{
    let Ok((t, next)) = ucs2_step(s, at) else {
        return Plain::Other;
    };
    match t {
        Token::Value(v) => word_plain(key, v, next),
        Token::Start => Plain::Start(next),
        Token::End => Plain::End(next),
    }
}

// What plainly stands at a place. Asks for a place within the bytes.
fn plain_at(c: Coding, s: &[u8], at: usize, key: u32) -> Plain
    requires { at < length s.now }
    ensures { (result ≡ plain_of c key (step_at c s.now at)) × StepSays c s.now at (step_at c s.now at) }
{
    match c {
        Coding::Utf8 => utf8_plain(s, at, key),
        Coding::Ucs2 => ucs2_plain(s, at, key),
    }
}

// Where a walk over a table stands: at a place, with so many descriptions still to end, and behind the last start mark of its description at
// `start`, NO_START where it has none yet. So it stands just after that mark where the two places are one, and a value needs to move nothing else.
#[derive(Clone, Copy)]
pub struct Cursor {
    pub at: usize,
    pub left: usize,
    pub start: usize,
}

// No place of a table.
// An `Option<usize>` takes 1.04 of a check's instructions over values of one byte, 1.09 in PSF1 (made-512-mode5: 31,070 for 28,506).
pub const NO_START: usize = 0xFFFFFFFFFFFFFFFF;

pub fn cursor_at(at: usize, left: usize, start: usize) -> Cursor
    ensures { result ≡ cursor_of at left start }
{
    Cursor {
        at: at,
        left: left,
        start: start,
    }
}

// Goes on from a cursor over what plainly stands there: up to a value with the key, to a mark where a value must stand, to where nothing can be
// read, or behind the last description. The cursor comes as its three numbers, which take no memory (docs/DECISIONS.md, "Speed"). Asks for one within
// the bytes and for a description that is still to end.
pub fn skip(c: Coding, s: &[u8], key: u32, from: usize, n: usize, mark: usize) -> Cursor
    requires { Stands s.now (cursor_of from n mark) × (1 ≤ n) }
    ensures { (front_at c s.now result ≡ skipped c key (front_at c s.now (cursor_of from n mark))) × Stands s.now result × (from ≤ result.at) }
{
    let mut at = from;
    let mut left = n;
    let mut start = mark;
    // No iterator: over one of what plainly stands there a check takes 1.04 of its instructions in PSF1 (29,530 for 28,506).
    while at < s.len() {
        let p = plain_at(c, s, at, key);
        match p {
            Plain::Value(next) => {
                at = next;
            }
            Plain::Start(next) => {
                if start == at {
                    return cursor_at(at, left, start);
                }
                start = next;
                at = next;
            }
            Plain::End(next) => {
                if start == at {
                    return cursor_at(at, left, start);
                }
                left -= 1;
                if left == 0 {
                    return cursor_at(next, 0, NO_START);
                }
                start = NO_START;
                at = next;
            }
            Plain::Other => return cursor_at(at, left, start),
        }
    }
    cursor_at(at, left, start)
}

// The answer behind the last description, at a place.
pub fn ended(s: &[u8], at: usize) -> Result<(), Fault>
    ensures { result ≡ ended_of (length s.now) at }
{
    if at < s.len() {
        return Err(Fault::Trailing(at));
    }
    Ok(())
}

// Why a table is refused at a place in UTF-8 where no value stands, with g descriptions complete before it: the reader of a value says it, of a mark
// too, with which no value begins. Asks for such a place.
fn utf8_refused(s: &[u8], at: usize, g: usize) -> Result<(), Fault>
    requires { (at ≤ length s.now) × NoValue (step_at Utf8 s.now at) }
    ensures { result ≡ refused_of (length s.now) g (step_at Utf8 s.now at) }
{
    let r = utf8::read_value(&s[at..]);
    match r {
        Ok(_) => Ok(()),
        Err(t) => match t {
            Malformed::Cut => Err(Fault::Cut(s.len(), g)),
            Malformed::Bad(k) => Err(Fault::Bad(at + k, g)),
        },
    }
}

// The same in two bytes: where both are there, a mark or a noncharacter is bad at the second, since the first could begin a value.
fn ucs2_refused(s: &[u8], at: usize, g: usize) -> Result<(), Fault>
    requires { (at ≤ length s.now) × NoValue (step_at Ucs2 s.now at) }
    ensures { result ≡ refused_of (length s.now) g (step_at Ucs2 s.now at) }
{
    if s.len() - at < 2 {
        return Err(Fault::Cut(s.len(), g));
    }
    Err(Fault::Bad(at + 1, g))
}

// Why a table is refused at a place where a value must stand and none does. Asks for such a place.
pub fn refused(c: Coding, s: &[u8], at: usize, g: usize) -> Result<(), Fault>
    requires { (at ≤ length s.now) × NoValue (step_at c s.now at) }
    ensures { result ≡ refused_of (length s.now) g (step_at c s.now at) }
{
    match c {
        Coding::Utf8 => utf8_refused(s, at, g),
        Coding::Ucs2 => ucs2_refused(s, at, g),
    }
}

// The answer of a table of n descriptions where a walk over all that plainly stands there came to an end.
fn answer_at(c: Coding, s: &[u8], n: usize, p: Cursor) -> Result<(), Fault>
    requires { Stands s.now p × (p.left ≤ n) × ((p.left ≡ 0 → ⊥) → NoValue (step_at c s.now p.at)) }
    ensures { result ≡ answer_at c s.now n p }
{
    if p.left == 0 {
        return ended(s, p.at);
    }
    refused(c, s, p.at, n - p.left)
}

// A walk over all that plainly stands there.
fn skip_all(c: Coding, s: &[u8], from: Cursor) -> Cursor
    requires { Stands s.now from × (1 ≤ from.left) }
    ensures { (front_at c s.now result ≡ skipped c no_key (front_at c s.now from)) × Stands s.now result }
{
    // `&s[..]`, not `s`: docs/DECISIONS.md, "Speed".
    skip(c, &s[..], coding::NO_KEY, from.at, from.left, from.start)
}

// The check of what is left of a table of n descriptions: no value is worked out. Asks for a cursor within the table.
pub fn check_from(c: Coding, tail: &[u8], n: usize, from: Cursor) -> Result<(), Fault>
    requires { Stands tail.now from × (1 ≤ from.left) × (from.left ≤ n) }
    ensures { result ≡ check_at c tail.now n from }
{
    answer_at(c, tail, n, skip_all(c, tail, from))
}

// Whether the tail is n descriptions, nothing over. Cut: it could still be completed, the place is its end.
// Bad: the place is the end of the longest start that could be completed, and that start is no table.
// Trailing: that start is a table, and the place is the first byte after it.
pub fn check_table(c: Coding, tail: &[u8], n: usize) -> Result<(), Fault>
    ensures { result ≡ table_of c n tail.now }
{
    if n == 0 {
        return ended(tail, 0);
    }
    check_from(c, tail, n, cursor_at(0, n, NO_START))
}
