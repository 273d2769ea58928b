// Inner layer: the check of a font, stage by stage: its size (1), what its header says (2 to 7), its length (8), its
// entries (9), its tail (10 to 12). Definitions: specs/Reading.antt.
#![tactic(auto)]

ghost use Rattle.std.specs.Prelude.{◌≡◌, ◌+◌, ◌<◌, Ok};
ghost use Rattle.base.specs.Meaning.{pick};
ghost use Rattle.header.specs.declared.Kind.TheVariants.{Vfont2 as vfont2};
ghost use Rattle.header.specs.Reading.{kind_of, says_of};
ghost use Rattle.header.specs.Bounds.{Placed};
ghost use Rattle.entries.specs.Reading.{scan_of};
ghost use Rattle.table.specs.Reading.{table_place, fault_place};
ghost use Rattle.stages.specs.Meaning.{coding_of, tail_of};
ghost use Rattle.stages.specs.Reading.{sized, greatest_of, scanned, entries_of, fault_at, told_at, table_tail, unless_table, to_table, through_body, through_entries, through_bare, check_of};
ghost use Rattle.stages.specs.Bounds.{CheckedPlaced, ToTablePlaced};

use coding::Coding;
use header::{Font, Format, Kind, LongHeader};
use psf1::Psf1;
use psf2::Psf2;
use refusal::{Reason, Refusal};
use table::Fault;
use vfont2::Vfont2;

// How a kind of file writes its table's values. No `From`: this crate has neither type, and the crates that have them do not know each other.
pub fn coding_of(kind: Kind) -> Coding
    ensures { result ≡ coding_of kind }
{
    match kind {
        Kind::Psf1 => Coding::Ucs2,
        Kind::Psf2 => Coding::Utf8,
        Kind::Vfont2 => Coding::Utf8,
    }
}

// The bytes behind a font's bitmaps: its table, if it has one. Asks for a font whose parts stand in the file (`Placed`).
#[inline(always)]
pub fn tail_of<'a>(file: &'a [u8], f: Font) -> &'a [u8]
    requires { Placed file.now f }
    ensures { result.now ≡ tail_of file.now f }
{
    &file[f.end..]
}

// The kind whose magic a file begins with. Three times the same lines: a function over the kind's type, called three times, would take as many.
fn kind_of(file: &[u8]) -> Option<Kind>
    ensures { result ≡ kind_of file.now }
{
    let psf1 = Psf1::MAGIC;
    if base::starts_with(file, &psf1) {
        return Some(Kind::Psf1);
    }
    let psf2 = Psf2::MAGIC;
    if base::starts_with(file, &psf2) {
        return Some(Kind::Psf2);
    }
    let vfont2 = Vfont2::MAGIC;
    if base::starts_with(file, &vfont2) {
        return Some(Kind::Vfont2);
    }
    None
}

// What a file's header says: refusals 2 to 7 in their order, or the font that it describes.
#[inline(always)]
pub fn says(file: &[u8]) -> Result<Font, Refusal>
    ensures { result ≡ says_of file.now }
{
    let kind = kind_of(file).ok_or(refusal::refuse(Reason::Kind, 0))?;
    match kind {
        Kind::Psf1 => Psf1::says(file),
        Kind::Psf2 => Psf2::says(file),
        Kind::Vfont2 => Vfont2::says(file),
    }
}

// The same for the loader, which asks it at every piece: one function for its calls, where `says` goes into each caller.
pub fn describes(file: &[u8]) -> Result<Font, Refusal>
    ensures { result ≡ says_of file.now }
{
    says(file)
}

// Refusal 8 for a file of so many bytes.
pub fn check_length(len: usize, f: Font) -> Result<Font, Refusal>
    ensures { result ≡ sized len f }
{
    if len < f.end {
        return Err(refusal::refuse(Reason::BodyCut, len));
    }
    Ok(f)
}

// The rest of refusal 9: whether a font's greatest height and width are those of its entries.
pub fn check_greatest(f: Font, height: usize, width: usize) -> Result<Font, Refusal>
    ensures { result ≡ greatest_of f height width }
{
    if f.height != height {
        return Err(refusal::refuse(Reason::Entry, 24));
    }
    if f.width != width {
        return Err(refusal::refuse(Reason::Entry, 28));
    }
    Ok(f)
}

// Refusal 9 of a vfont2 font whose parts stand in the file (`Placed`).
// By `match`, for each arm does its own: `map_err` would take a closure that holds the font, and a `?` behind it.
fn check_dispatch(file: &[u8], f: Font) -> Result<Font, Refusal>
    requires { Placed file.now f × (f.kind ≡ vfont2) }
    ensures { result ≡ scanned f (scan_of file.now f.size f.entries f.count 0 0 0) }
{
    let s = entries::scan_entries(file, f.size, f.count, f.entries);
    match s {
        Ok((h, w)) => check_greatest(f, h, w),
        Err(i) => Err(refusal::refuse_at(Reason::Entry, f.entries + i * Vfont2::ENTRY_LEN, i)),
    }
}

// Refusal 9 of a font whose parts stand in the file (`Placed`).
pub fn check_entries(file: &[u8], f: Font) -> Result<Font, Refusal>
    requires { Placed file.now f }
    ensures { result ≡ entries_of file.now f }
{
    let kind = f.kind;
    match kind {
        Kind::Psf1 => Ok(f),
        Kind::Psf2 => Ok(f),
        Kind::Vfont2 => check_dispatch(file, f),
    }
}

// The refusal of a table that begins at `end`. Asks for places that are offsets in a file.
pub fn fault_at(end: usize, t: Fault) -> Refusal
    requires { end + fault_place t < 18446744073709551616 }
    ensures { result ≡ fault_at end t }
{
    match t {
        Fault::Cut(k, g) => refusal::refuse_at(Reason::TableCut, end + k, g),
        Fault::Bad(k, g) => refusal::refuse_at(Reason::TableBad, end + k, g),
        Fault::Trailing(k) => refusal::refuse(Reason::Trailing, end + k),
    }
}

// What a table's answer says, where the table begins at `end`. Asks for the same.
pub fn told_at(end: usize, a: Result<(), Fault>) -> Result<(), Refusal>
    requires { end + table_place a < 18446744073709551616 }
    ensures { result ≡ told_at end a }
{
    a.map_err(|t| fault_at(end, t))
}

// What the table of a font says whose parts stand in the file (`Placed`). The table reader is handed only the tail.
pub fn check_font_table(file: &[u8], f: Font) -> Result<(), Refusal>
    requires { Placed file.now f }
    ensures { result ≡ table_tail file.now f }
{
    let c = coding_of(f.kind);
    told_at(f.end, table::check_table(c, tail_of(file, f), f.count))
}

// The same of a font that may have no table.
pub fn check_tail(file: &[u8], f: Font, table: bool) -> Result<(), Refusal>
    requires { Placed file.now f }
    ensures { result ≡ pick table (table_tail file.now f) (Ok tt) }
{
    if table {
        return check_font_table(file, f);
    }
    Ok(())
}

// Refusal 12 of a font without a table; and whether it has one. The flag stands beside the font, so that a call reads no field of the font before
// its table is checked (docs/DECISIONS.md, "Speed").
#[tactic(auto, using(crate::proofs::Cases::reached_trailing))]
fn check_bare(file: &[u8], f: Font) -> Result<(bool, Font), Refusal>
    ensures { result ≡ to_table (unless_table file.now f) }
{
    if f.table {
        return Ok((true, f));
    }
    if f.end < file.len() {
        return Err(refusal::refuse(Reason::Trailing, f.end));
    }
    Ok((false, f))
}

// Refusals 1 to 8 in their order; and that the parts of a font that passes stand in the file.
pub fn check_body(file: &[u8]) -> Result<Font, Refusal>
    ensures equal { result ≡ through_body file.now }
    ensures bounded { CheckedPlaced file.now result }
{
    let len = file.len();
    if header::LIMIT < len {
        return Err(refusal::refuse(Reason::TooLong, header::LIMIT));
    }
    let f = says(file)?;
    check_length(len, f)
}

// Refusals 1 to 9, as above.
pub fn check_dispatched(file: &[u8]) -> Result<Font, Refusal>
    ensures equal { result ≡ through_entries file.now }
    ensures bounded { CheckedPlaced file.now result }
{
    let f = check_body(file)?;
    check_entries(file, f)
}

// Refusals 1 to 9, and 12 of a font without a table: what a call has to know before it goes over the table. One function for all calls, so the
// compiler puts the stages above into it (docs/DECISIONS.md, "Speed").
pub fn check_to_table(file: &[u8]) -> Result<(bool, Font), Refusal>
    ensures equal { result ≡ to_table (through_bare file.now) }
    ensures bounded { ToTablePlaced file.now result }
{
    let f = check_dispatched(file)?;
    check_bare(file, f)
}

// Refusals 1 to 12, or what the font is; and that the parts of a font that passes stand in the file.
pub fn check(file: &[u8]) -> Result<Font, Refusal>
    ensures equal { result ≡ check_of file.now }
    ensures bounded { CheckedPlaced file.now result }
{
    // By `match`: with `?` in its place the font is copied some times more, 137 instructions and 320 bytes of stack in each call that checks.
    match check_to_table(file) {
        Ok((table, f)) => match check_tail(file, f, table) {
            Ok(()) => Ok(f),
            Err(r) => Err(r),
        },
        Err(r) => Err(r),
    }
}
