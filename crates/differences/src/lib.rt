// Public: the differences of two fonts, of any kinds, as pairs of kind and glyph in a lent buffer of 32-bit numbers. Definitions:
// specs/Meaning.antt (pairs as numbers), specs/Reading.antt; what they mean is said in the crate `laws` (proofs/Differences.antt).
#![tactic(auto)]

ghost use Rattle.std.specs.Prelude.{◌≡◌, ℕ, ◌+◌, ◌-◌, ◌*◌, ◌≤◌, ◌<◌, min, max, length, Some};
ghost use Rattle.base.specs.Reading.{over};
ghost use Rattle.header.specs.Bounds.{Placed};
ghost use Rattle.glyphs.specs.Reading.{kind_number};
ghost use Rattle.differences.specs.Meaning.{numbers};
ghost use Rattle.differences.specs.Reading.{pair_of, glyph_pairs, table_kind, item_kind, only_kind, common_pairs, rest_from, compared_start, pairs_of, fitted, compared_with, found_with, compare_answer, left_by, compare_into};
ghost use Rattle.stages.specs.Reading.{check_of};

mod common;

use common::Common;
use glyphs::Difference;
use header::Font;
use refusal::{Reason, Refusal};

// Why two fonts are not compared: the first font's own refusal, the second's own, or neither's, for a buffer without room.
#[derive(Clone, Copy)]
pub enum Uncompared {
    First(Refusal),
    Second(Refusal),
    Neither(Refusal),
}

// `Table` where just one font has a table, else none.
fn table_kind(a: bool, b: bool) -> Option<Difference>
    ensures { kind_number result ≡ table_kind a b }
{
    if a {
        if b {
            return None;
        }
        return Some(Difference::Table);
    }
    if b {
        return Some(Difference::Table);
    }
    None
}

// `Items` where two descriptions differ, else none.
fn item_kind(same: bool) -> Option<Difference>
    ensures { kind_number result ≡ item_kind same }
{
    if same {
        return None;
    }
    Some(Difference::Items)
}

// `Second` for glyphs that only the second of two fonts has, else `First`.
fn only_kind(n: usize, m: usize) -> Difference
    ensures { kind_number (Some result) ≡ only_kind n m }
{
    if n < m {
        return Difference::Second;
    }
    Difference::First
}

// How many pairs a difference makes: none where there is none.
#[tactic(auto, using(crate::proofs::Pairs::pairs_made))]
fn pair_count(k: Option<Difference>) -> usize
    ensures { (result ≡ length (pair_of (kind_number k) 0)) × (result ≤ 1) }
{
    usize::from(k.is_some())
}

// The pair of a difference and a glyph to the front, and how many numbers that is: none for no difference. Asks for a glyph's number and for
// room: each caller has counted.
fn put_pair(k: Option<Difference>, g: usize, out: &mut [u32]) -> usize
    requires { (g ≤ 4096) × (length (numbers (pair_of (kind_number k) g)) ≤ length out.old) }
    ensures { (result ≡ length (numbers (pair_of (kind_number k) g))) × (result ≤ 2) × (out.new ≡ over (numbers (pair_of (kind_number k) g)) out.old) }
{
    let Some(d) = k else {
        return 0;
    };
    out[0] = d as u32;
    out[1] = g as u32;
    2
}

// The pairs of a glyph, of two differences, to the front, and how many numbers that is. Asks for the same.
fn put_glyph(k: Option<Difference>, j: Option<Difference>, g: usize, out: &mut [u32]) -> usize
    requires { (g ≤ 4096) × (length (numbers (glyph_pairs (kind_number k) (kind_number j) g)) ≤ length out.old) }
    ensures { (result ≡ length (numbers (glyph_pairs (kind_number k) (kind_number j) g))) × (result ≤ 4) × (out.new ≡ over (numbers (glyph_pairs (kind_number k) (kind_number j) g)) out.old) }
{
    let at = put_pair(k, g, &mut out[0..]);
    at + put_pair(j, g, &mut out[at..])
}

// How many pairs the glyphs that both fonts have make. Asks for fonts whose parts stand in the files. Counted and written by two functions, here and
// below: a refused call writes nothing, so a buffer that may be too short is counted for first.
fn count_common(a: &[u8], f: Font, b: &[u8], h: Font) -> usize
    requires { Placed a.now f × Placed b.now h }
    ensures { (result ≡ length (common_pairs a.now f b.now h)) × (result ≤ 8192) }
{
    let mut total: usize = 0;
    for p in Common::new(a, f, b, h) {
        total += pair_count(p.drawn) + pair_count(p.listed);
    }
    total
}

// The pairs of these glyphs to the front, and how many numbers that is. Asks for the same, and for room: the caller has counted.
fn put_common(a: &[u8], f: Font, b: &[u8], h: Font, out: &mut [u32]) -> usize
    requires { Placed a.now f × Placed b.now h × (length (numbers (common_pairs a.now f b.now h)) ≤ length out.old) }
    ensures { (result ≡ length (numbers (common_pairs a.now f b.now h))) × (result ≤ 16384) × (out.new ≡ over (numbers (common_pairs a.now f b.now h)) out.old) }
{
    let mut at: usize = 0;
    for p in Common::new(a, f, b, h) {
        at += put_glyph(p.drawn, p.listed, p.glyph, &mut out[at..]);
    }
    at
}

// The pairs of difference r for `count` glyphs from glyph `from` on, to the front, and how many numbers that is. Asks for glyphs' numbers and
// for room.
fn put_rest(r: Difference, count: usize, from: usize, out: &mut [u32]) -> usize
    requires { (from + count ≤ 4096) × (length (numbers (rest_from (kind_number (Some r)) count from)) ≤ length out.old) }
    ensures { (result ≡ length (numbers (rest_from (kind_number (Some r)) count from))) × (result ≤ 8192) × (out.new ≡ over (numbers (rest_from (kind_number (Some r)) count from)) out.old) }
{
    let mut at: usize = 0;
    for i in 0..count {
        at += put_pair(Some(r), from + i, &mut out[at..]);
    }
    at
}

// Where the descriptions of font f that are compared begin in its file: at its table, or at the file's end where just one font has one.
// Asks that the table's start stands in the file.
fn compared_start(len: usize, f: Font, h: Font) -> usize
    requires { f.end ≤ len }
    ensures { (result ≡ compared_start len f h) × (result ≤ len) }
{
    if table_kind(f.table, h.table).is_none() {
        return f.end;
    }
    len
}

// How many pairs two fonts make. Asks for fonts whose parts stand in the files.
fn count_pairs(a: &[u8], f: Font, b: &[u8], h: Font) -> usize
    requires { Placed a.now f × Placed b.now h }
    ensures { (result ≡ length (pairs_of a.now f b.now h)) × (result ≤ 16384) }
{
    let n = f.count.min(h.count);
    let m = f.count.max(h.count);
    let common = count_common(a, f, b, h);
    pair_count(table_kind(f.table, h.table)) + common + (m - n)
}

// The pairs of two fonts to the front, each part to its own stretch, and how many numbers that is. Asks for fonts whose parts stand in the files,
// and for room: the caller has counted, or has room for any pairs of these fonts.
fn put_pairs(a: &[u8], f: Font, b: &[u8], h: Font, out: &mut [u32]) -> usize
    requires { Placed a.now f × Placed b.now h × (length (numbers (pairs_of a.now f b.now h)) ≤ length out.old) }
    ensures { (result ≡ length (numbers (pairs_of a.now f b.now h))) × (out.new ≡ over (numbers (pairs_of a.now f b.now h)) out.old) }
{
    let n = f.count.min(h.count);
    let m = f.count.max(h.count);
    let k = table_kind(f.table, h.table);
    let r = only_kind(f.count, h.count);
    let common = put_pair(k, 0, &mut out[0..]);
    let rest = common + put_common(a, f, b, h, &mut out[common..]);
    rest + put_rest(r, m - n, n, &mut out[rest..])
}

// The differences of two sound fonts: written at once where the buffer has room for any pairs of fonts of so many glyphs, which are no more than
// they have glyphs together; else counted first, since a refused call writes nothing. Asks for fonts whose parts stand in the files.
#[tactic(auto, using(crate::proofs::Cases::no_room))]
fn compare_fonts(a: &[u8], f: Font, b: &[u8], h: Font, out: &mut [u32]) -> Result<usize, Uncompared>
    requires { Placed a.now f × Placed b.now h }
    ensures answer { result ≡ fitted (length out.old) (length (pairs_of a.now f b.now h)) }
    ensures buffer { out.new ≡ left_by result (pairs_of a.now f b.now h) out.old }
{
    let most = 2 * (f.count + h.count);
    if out.len() < most {
        let n = count_pairs(a, f, b, h);
        let need = 2 * n;
        if out.len() < need {
            return Err(Uncompared::Neither(refusal::refuse(Reason::Room, need)));
        }
        if n == 0 {
            return Ok(0);
        }
    }
    let used = put_pairs(a, f, b, h, out);
    Ok(used / 2)
}

// The same, where the first font is sound: the second's refusal first.
fn compare_second(a: &[u8], f: Font, b: &[u8], out: &mut [u32]) -> Result<usize, Uncompared>
    requires { Placed a.now f }
    ensures answer { result ≡ compared_with a.now f b.now (length out.old) (check_of b.now) }
    ensures buffer { out.new ≡ left_by result (found_with a.now f b.now (check_of b.now)) out.old }
{
    let h = stages::check(b).map_err(|r| Uncompared::Second(r))?;
    compare_fonts(a, f, b, h, out)
}

// The differences of two fonts at the front of out, as pairs of kind and glyph: (6, 0) first where just one font has a table, and then no
// descriptions are compared; then by glyph, and by kind within it: 1 only in the first font, 2 only in the second, 3 metrics differ or just
// one font has no glyph there, 4 pixels differ though metrics agree, 5 items differ. The count of pairs is answered; other numbers of out stay.
// Refusals: the first font's own (1 to 12), the second font's own, ROOM with the count of numbers needed. A refused call leaves out as it was.
#[tactic(auto, unfolding(crate::specs::Reading::compare_answer, crate::specs::Reading::compare_into, crate::specs::Reading::differences_of))]
pub fn compare(first: &[u8], second: &[u8], out: &mut [u32]) -> Result<usize, Uncompared>
    ensures answer { result ≡ compare_answer first.now second.now (length out.old) }
    ensures buffer { out.new ≡ compare_into first.now second.now out.old }
{
    let f = stages::check(first).map_err(|r| Uncompared::First(r))?;
    compare_second(first, f, second, out)
}
