// A checker that is fed any number of pieces and asked once at the end (document 02, W2). The work is done by value: `fresh`, `fed`, `closed`.
// `feed` and `close` do the same to a record that is lent to them. Definitions: specs/Reading.antt. What it means: the close answers what
// the whole-file check answers on the pieces joined (crates/laws/proofs/Loading.antt).
#![tactic(auto)]

ghost use Rattle.std.specs.Prelude.{◌≡◌, ◌+◌, ◌-◌, ◌≤◌, ◌<◌, true, length};
ghost use Rattle.header.specs.Bounds.{Parts};
ghost use Rattle.loader.specs.Reading.{part_of, entries_in, table_in, font_fed, body_fed, head_fed, fresh_of, past_limit, is_open, open_fed, fed_of, feed_answer, entry_number, entries_told, tail_told, font_told, answer_of, closed_of, close_answer};
ghost use Rattle.loader.specs.Bounds.{Fitting};

use entryfeed::Sums;
use header::{Font, Format, Kind};
use refusal::{Reason, Refusal};
use tablefeed::Standing;
use unfinished::Held;
use vfont2::Vfont2;

// A file that is being read: how many bytes there were (none are counted past the limit), 0 while the record is open, the file's first 32
// bytes, the unfinished bytes of header, entry or value, what the entries said so far, and how far the Unicode table has been read.
// Numbers and bytes alone, so that whatever stands in a caller's memory is a record.
#[repr(C)]
#[derive(Clone, Copy)]
pub struct Loader {
    pub total: usize,
    pub closed: usize,
    pub header: [u8; 32],
    pub held: Held,
    pub sums: Sums,
    pub standing: Standing,
}

// Before the first byte.
pub fn fresh() -> Loader
    ensures { result ≡ fresh_of }
{
    Loader {
        total: 0,
        closed: 0,
        header: [0u8; 32],
        held: Held::none(),
        sums: entryfeed::no_sums(),
        standing: tablefeed::unread(),
    }
}

// Whether a record can be fed: it is not closed, and the number of its unfinished bytes is one that feeding leaves.
#[tactic(auto, using(crate::proofs::Opening::is_closed))]
pub fn is_open(l: Loader) -> bool
    ensures { result ≡ is_open l }
{
    if l.closed != 0 {
        return false;
    }
    let h = l.held;
    if l.total < 32 {
        return h.len == l.total;
    }
    h.len < 18
}

// Where a place of the file stands in so many bytes of it that begin at `total`: 0 for a place before them, their end for one behind them.
fn offset_of(total: usize, place: usize, len: usize) -> usize
    ensures { (result ≤ len) × (result ≤ place - total) × (result < len → result ≡ place - total) }
{
    place.saturating_sub(total).min(len)
}

// The part of a piece that stands in the file from `start` on and before `end`, where the piece begins at `total`.
fn part<'a>(piece: &'a [u8], total: usize, start: usize, end: usize) -> &'a [u8]
    ensures { result.now ≡ part_of total start end piece.now }
{
    let b = offset_of(total, end, piece.len());
    let a = offset_of(total, start, b);
    &piece[a..b]
}

// The entries that a piece brings, which begins at `total` in the file. Asks for what `feed_body` asks for.
// Beside `feed_table`, and no function of both: they call two functions with other arguments, which would have to be handed in as a closure.
fn feed_entries(f: Font, total: usize, h: Held, x: Sums, piece: &[u8]) -> entryfeed::Fed
    requires { (1 ≤ f.entries) × Fitting total h piece.now × (total < 32 → h.len ≡ 0) }
    ensures { result ≡ entries_in f total h x piece.now }
{
    let s = part(piece, total, f.entries, f.bitmaps);
    if s.is_empty() {
        return entryfeed::Fed { held: h, sums: x };
    }
    if f.entries < total {
        return entryfeed::feed(f.size, total, h, x, s);
    }
    entryfeed::feed(f.size, f.entries, Held::none(), x, s)
}

// What a piece brings of the Unicode table. Asks for what `feed_body` asks for.
fn feed_table(f: Font, total: usize, h: Held, t: Standing, piece: &[u8]) -> tablefeed::Fed
    requires { (32 ≤ f.end) × Fitting total h piece.now }
    ensures { result ≡ table_in f total h t piece.now }
{
    let s = part(piece, total, f.end, header::LIMIT);
    if s.is_empty() {
        return tablefeed::Fed {
            held: h,
            standing: t,
        };
    }
    if !f.table {
        return tablefeed::Fed {
            held: h,
            standing: t,
        };
    }
    let kind = f.kind;
    let c = stages::coding_of(kind);
    if f.end < total {
        return tablefeed::feed(c, f.count, total, h, t, s);
    }
    tablefeed::feed(c, f.count, f.end, Held::none(), t, s)
}

// A piece of a font that the header describes. Asks for what `feed_body` asks for.
#[inline(always)]
fn feed_font(l: Loader, f: Font, piece: &[u8]) -> Loader
    requires { Parts f × Fitting l.total l.held piece.now × (l.total < 32 → l.held.len ≡ 0) }
    ensures { result ≡ font_fed f l piece.now }
{
    let e = feed_entries(f, l.total, l.held, l.sums, piece);
    let t = feed_table(f, l.total, e.held, l.standing, piece);
    let header = l.header;
    let held = t.held;
    let sums = e.sums;
    let standing = t.standing;
    Loader {
        total: l.total + piece.len(),
        closed: l.closed,
        header: header,
        held: held,
        sums: sums,
        standing: standing,
    }
}

// A piece of a file whose header is known. Asks for a piece within the file limit, for fewer bytes held than an entry has, and for none where
// the header has just been read: the callers have tested it.
#[inline(always)]
fn feed_body(l: Loader, piece: &[u8]) -> Loader
    requires { Fitting l.total l.held piece.now × (l.total < 32 → l.held.len ≡ 0) }
    ensures { result ≡ body_fed l piece.now }
{
    let header = l.header;
    let c = stages::describes(&header);
    match c {
        Ok(f) => feed_font(l, f, piece),
        Err(_) => {
            let mut next = l;
            next.total = l.total + piece.len();
            next
        }
    }
}

// A piece while the header is unfinished. Asks for an open record, with the header's first bytes held, and for a piece within the file limit.
fn feed_header(l: Loader, piece: &[u8]) -> Loader
    requires { (l.total < 32) × (l.held.len ≡ l.total) × (l.total + length piece.now ≤ 1048576) }
    ensures { result ≡ head_fed l piece.now }
{
    let n = piece.len();
    let total = l.total;
    let rest = 32 - total;
    let sums = l.sums;
    let standing = l.standing;
    if n < rest {
        let header = l.header;
        return Loader {
            total: total + n,
            closed: l.closed,
            header: header,
            held: l.held.grow(piece),
            sums: sums,
            standing: standing,
        };
    }
    let whole = l.held.put(&piece[..rest]);
    let bytes = whole.bytes;
    let next = Loader {
        total: total,
        closed: l.closed,
        header: bytes,
        held: Held::none(),
        sums: sums,
        standing: standing,
    };
    feed_body(next, piece)
}

// A file that is too long: nothing else is kept of it.
fn past_limit() -> Loader
    ensures { result ≡ past_limit }
{
    let mut next = fresh();
    next.total = header::LIMIT + 1;
    next
}

// A piece to an open record.
fn feed_open(l: Loader, piece: &[u8]) -> Loader
    requires { is_open l ≡ true }
    ensures { result ≡ open_fed l piece.now }
{
    if header::LIMIT < l.total {
        return l;
    }
    if header::LIMIT - l.total < piece.len() {
        return past_limit();
    }
    if l.total < 32 {
        return feed_header(l, piece);
    }
    feed_body(l, piece)
}

// The record after a piece; one that is not open stays as it is.
pub fn fed(l: Loader, piece: &[u8]) -> Loader
    ensures { result ≡ fed_of l piece.now }
{
    if is_open(l) {
        return feed_open(l, piece);
    }
    l
}

// What feeding a record answers: LATE (22, place 0) if it is not open.
pub fn fed_answer(l: Loader) -> Result<(), Refusal>
    ensures { result ≡ feed_answer l }
{
    if !is_open(l) {
        return Err(refusal::refuse(Reason::Late, 0));
    }
    Ok(())
}

// The number of the entry that stands at a place of the dispatch table.
fn entry_number(start: usize, place: usize) -> usize
    ensures { result ≡ entry_number start place }
{
    if place < start {
        return 0;
    }
    (place - start) / Vfont2::ENTRY_LEN
}

// What the entries of a font said.
fn told_entries(f: Font, x: Sums) -> Result<Font, Refusal>
    ensures { result ≡ entries_told f x }
{
    let kind = f.kind;
    match kind {
        Kind::Psf1 => Ok(f),
        Kind::Psf2 => Ok(f),
        Kind::Vfont2 => {
            if x.broken != 0 {
                return Err(refusal::refuse_at(
                    Reason::Entry,
                    x.broken,
                    entry_number(f.entries, x.broken),
                ));
            }
            stages::check_greatest(f, x.height, x.width)
        }
    }
}

// What the tail of a font of so many bytes said. `halted` is a number, since C keeps the record: 0 for a table that is read on, 12 for bytes behind it,
// 11 for any other fault.
fn told_tail(f: Font, total: usize, t: Standing) -> Result<Font, Refusal>
    ensures { result ≡ tail_told f total t }
{
    if !f.table {
        if f.end < total {
            return Err(refusal::refuse(Reason::Trailing, f.end));
        }
        return Ok(f);
    }
    if t.halted == 0 {
        if t.ended < f.count {
            return Err(refusal::refuse_at(Reason::TableCut, total, t.ended));
        }
        return Ok(f);
    }
    if t.halted == 12 {
        return Err(refusal::refuse(Reason::Trailing, t.place));
    }
    Err(refusal::refuse_at(Reason::TableBad, t.place, t.ended))
}

// What a font said that the header describes: its length, its entries, its tail.
fn told_font(f: Font, l: Loader) -> Result<Font, Refusal>
    ensures { result ≡ font_told f l }
{
    let g = stages::check_length(l.total, f)?;
    let k = told_entries(g, l.sums)?;
    told_tail(k, l.total, l.standing)
}

// What the whole-file check says of the bytes that an open record was fed.
fn told_open(l: Loader) -> Result<Font, Refusal>
    requires { is_open l ≡ true }
    ensures { result ≡ answer_of l }
{
    if header::LIMIT < l.total {
        return Err(refusal::refuse(Reason::TooLong, header::LIMIT));
    }
    let header = l.header;
    if l.total < 32 {
        let h = l.held;
        let n = h.len;
        let bytes = h.bytes;
        return stages::check(&bytes[..n]);
    }
    let f = stages::describes(&header)?;
    told_font(f, l)
}

// What closing a record answers: LATE (22, place 0) if it is not open.
pub fn closed_answer(l: Loader) -> Result<Font, Refusal>
    ensures { result ≡ close_answer l }
{
    if is_open(l) {
        return told_open(l);
    }
    Err(refusal::refuse(Reason::Late, 0))
}

// The record after a close, whatever it answers; one that is not open stays as it is.
pub fn closed(l: Loader) -> Loader
    ensures { result ≡ closed_of l }
{
    if is_open(l) {
        let mut next = l;
        next.closed = 1;
        return next;
    }
    l
}

// A piece to a record that is lent, and changed there: LATE (22, place 0), and the record as it was, if it is not open. A record that these
// calls can't have made is LATE where it is marked as closed or the number of its unfinished bytes is none that feeding leaves (`is_open`);
// any other is taken at its word.
pub fn feed(state: &mut Loader, piece: &[u8]) -> Result<(), Refusal>
    ensures { (result ≡ feed_answer state.old) × (state.new ≡ fed_of state.old piece.now) }
{
    let s = *state;
    *state = fed(s, piece);
    fed_answer(s)
}

// The close of a record that is lent: what the whole-file check says of all pieces joined, and the record closed; LATE as above.
pub fn close(state: &mut Loader) -> Result<Font, Refusal>
    ensures { (result ≡ close_answer state.old) × (state.new ≡ closed_of state.old) }
{
    let s = *state;
    *state = closed(s);
    closed_answer(s)
}
