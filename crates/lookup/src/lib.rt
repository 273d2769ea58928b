// Inner layer: a table's items by number, by a walk over the tail as far as it can be read; and lookups of values and sequences, each one pass that
// checks the table too. Definitions: specs/Meaning.antt (what is listed), specs/Reading.antt (what is answered).
#![tactic(auto)]

ghost use Rattle.std.specs.Prelude.{◌≡◌, ◌≤◌, length, get_or};
ghost use Rattle.table.specs.Reading.{items_in, steps_at, table_of};
ghost use Rattle.table.specs.Skipping.{phase_of, Stands};
ghost use Rattle.lookup.specs.Reading.{item_at, find_value, find_sequence, is_sequence, values_of, sequence_in, begins_at, looked_of, find_asked};

use coding::Coding;
use table::{Cursor, Fault, Item, Items, Steps};
use token::Token;

// Item k of glyph g, counted from 0, in the order of the file.
pub fn item_at(c: Coding, tail: &[u8], g: usize, k: usize) -> Option<Item>
    ensures { result ≡ item_at g k (items_in c tail.now) }
{
    let mut glyphs = g;
    let mut left = k;
    for item in Items::new(c, tail) {
        if glyphs != 0 {
            if item.is_end() {
                glyphs -= 1;
            }
            continue;
        }
        if left == 0 {
            return Some(item);
        }
        if item.is_end() {
            return None;
        }
        left -= 1;
    }
    None
}

// Whether from a place on stand exactly the values vs, and then a mark.
fn sequence_at(c: Coding, tail: &[u8], start: usize, vs: &[u32]) -> bool
    ensures { result ≡ sequence_in vs.now (steps_at c tail.now start) }
{
    let mut m: usize = 0;
    for step in Steps::new(c, tail, start) {
        let Ok((token, _)) = step else {
            return false;
        };
        let Token::Value(v) = token else {
            return vs.len() <= m;
        };
        if vs.len() <= m {
            return false;
        }
        if vs[m] != v {
            return false;
        }
        m += 1;
    }
    false
}

// What is looked for: a value among a glyph's singles, or a sequence.
#[derive(Clone, Copy)]
enum Asked<'a> {
    Value(u32),
    Sequence(&'a [u32]),
}

// The first value of what is asked for. Asks for some value.
fn first_of(asked: Asked) -> u32
    requires { 1 ≤ length (values_of asked) }
    ensures { result ≡ get_or (values_of asked.entry) 0 0 }
{
    match asked {
        Asked::Value(v) => v,
        Asked::Sequence(vs) => vs[0],
    }
}

// Whether what is asked for begins with the value w, where a walk stands. Asks for a cursor within the table.
fn begins(asked: Asked, c: Coding, tail: &[u8], p: Cursor, w: u32) -> bool
    requires { Stands tail.now p }
    ensures { result ≡ begins_at (is_sequence asked.entry) (values_of asked.entry) (phase_of p.start p.at) w (steps_at c tail.now p.at) }
{
    match asked {
        Asked::Value(v) => {
            if p.start == table::NO_START {
                return w == v;
            }
            false
        }
        Asked::Sequence(vs) => {
            if p.start == p.at {
                return sequence_at(c, tail, p.at, vs);
            }
            false
        }
    }
}

// What was found, where the table is complete; else what its check says.
fn looked_by(w: Option<usize>, a: Result<(), Fault>) -> Result<Option<usize>, Fault>
    ensures { result ≡ looked_of w a }
{
    a?;
    Ok(w)
}

// Checks a table of n descriptions and looks for what is asked for, in one pass: it goes over what plainly stands there, up to each value with the
// key of the first that is asked for. Asks for some value.
fn look(c: Coding, tail: &[u8], n: usize, asked: Asked) -> Result<Option<usize>, Fault>
    requires { 1 ≤ length (values_of asked) }
    ensures { result ≡ looked_of (find_asked (is_sequence asked.entry) (values_of asked.entry) (items_in c tail.now)) (table_of c n tail.now) }
{
    let key = coding::key_of(c, first_of(asked));
    let mut left = n;
    let mut start: usize = table::NO_START;
    let mut at: usize = 0;
    // It counts descriptions, no index: each turn is one call of `skip`, and an iterator of cursors would hold just these three numbers.
    while left != 0 {
        // `&tail[..]`, not `tail`: docs/DECISIONS.md, "Speed".
        let p = table::skip(c, &tail[..], key, at, left, start);
        left = p.left;
        start = p.start;
        at = p.at;
        if left == 0 {
            return looked_by(None, table::ended(tail, at));
        }
        let Some((w, next)) = table::value_of(table::step_at(c, tail, at)) else {
            return looked_by(None, table::refused(c, tail, at, n - left));
        };
        if begins(asked, c, tail, p, w) {
            return looked_by(
                Some(n - left),
                table::check_from(c, tail, n, table::cursor_at(next, left, start)),
            );
        }
        at = next;
    }
    looked_by(None, table::ended(tail, at))
}

// The lowest glyph that lists v as a single, in a table of n descriptions; else what the check of the table says.
pub fn find_value(c: Coding, tail: &[u8], n: usize, v: u32) -> Result<Option<usize>, Fault>
    ensures { result ≡ looked_of (find_value v 0 (items_in c tail.now)) (table_of c n tail.now) }
{
    look(c, tail, n, Asked::Value(v))
}

// The lowest glyph that, after some start mark, lists exactly vs up to the next start or end mark; as above. Asks for some value.
pub fn find_sequence(c: Coding, tail: &[u8], n: usize, vs: &[u32]) -> Result<Option<usize>, Fault>
    requires { 1 ≤ length vs.now }
    ensures { result ≡ looked_of (find_sequence vs.now (items_in c tail.now)) (table_of c n tail.now) }
{
    look(c, tail, n, Asked::Sequence(vs))
}
