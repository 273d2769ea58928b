// Inner layer: the conversions: from which kind to which, what each is refused for before its first byte is written (17 to 20), and how long
// its output is. Definitions: specs/Meaning.antt, specs/Reading.antt.
#![tactic(auto)]

ghost use Rattle.std.specs.Prelude.{◌≡◌, ◌+◌, ◌*◌, ◌≤◌, ◌<◌, length};
ghost use Rattle.header.specs.Meaning.{header_len, entry_len};
ghost use Rattle.header.specs.Bounds.{Placed};
ghost use Rattle.header.specs.declared.Kind.TheVariants.{Vfont2 as vfont2};
ghost use Rattle.transcode.specs.Bounds.{MeasuredWithin};
ghost use Rattle.entries.specs.Meaning.{entry_at};
ghost use Rattle.conversion.specs.Meaning.{source_kind, target_kind, front_len};
ghost use Rattle.conversion.specs.Reading.{opened_of, is_psf1_count, suits_psf1, is_even, evenness, even_suits, suits_of, measured_of, fitting, glyph_told, glyph_at, measured_then, prepared_on, prepared_of};
ghost use Rattle.stages.specs.Meaning.{tail_of};
ghost use Rattle.conversion.specs.Bounds.{OpenedPlaced};

use coding::Coding;
use header::{Font, Format, Kind};
use psf1::Psf1;
use psf2::Psf2;
use refusal::{Reason, Refusal};
use vfont2::Vfont2;

// Each conversion, by the kinds it goes between. What depends on it is a `match` that gives a value: as closures, each
// of the four calls would hand in five, which is no plainer.
#[derive(Clone, Copy)]
pub enum Conversion {
    Psf1ToPsf2,
    Psf2ToPsf1,
    Psf2ToVfont2,
    Vfont2ToPsf2,
}

// The kind that a conversion wants.
pub fn source_of(c: Conversion) -> Kind
    ensures { result ≡ source_kind c }
{
    match c {
        Conversion::Psf1ToPsf2 => Kind::Psf1,
        Conversion::Psf2ToPsf1 => Kind::Psf2,
        Conversion::Psf2ToVfont2 => Kind::Psf2,
        Conversion::Vfont2ToPsf2 => Kind::Vfont2,
    }
}

// The kind that it writes.
pub fn target_of(c: Conversion) -> Kind
    ensures { result ≡ target_kind c }
{
    match c {
        Conversion::Psf1ToPsf2 => Kind::Psf2,
        Conversion::Psf2ToPsf1 => Kind::Psf1,
        Conversion::Psf2ToVfont2 => Kind::Vfont2,
        Conversion::Vfont2ToPsf2 => Kind::Psf2,
    }
}

// How many bytes a kind's header has.
pub fn header_len(kind: Kind) -> usize
    ensures { (result ≡ header_len kind) × (result ≤ 32) }
{
    match kind {
        Kind::Psf1 => Psf1::HEADER_LEN,
        Kind::Psf2 => Psf2::HEADER_LEN,
        Kind::Vfont2 => Vfont2::HEADER_LEN,
    }
}

// How many bytes stand for each glyph between a kind's header and its bitmaps.
pub fn entry_len(kind: Kind) -> usize
    ensures { (result ≡ entry_len kind) × (result ≤ 18) }
{
    match kind {
        Kind::Psf1 => Psf1::ENTRY_LEN,
        Kind::Psf2 => Psf2::ENTRY_LEN,
        Kind::Vfont2 => Vfont2::ENTRY_LEN,
    }
}

// A sound font of a kind, or the refusal; and that its parts stand in the file.
pub fn opened(file: &[u8], k: Kind) -> Result<Font, Refusal>
    ensures equal { result ≡ opened_of k file.now }
    ensures bounded { OpenedPlaced k file.now result }
{
    // By `match`: with `?` in its place each edit and conversion takes 48 bytes of stack more.
    match stages::check(file) {
        Ok(f) => {
            if k == f.kind {
                return Ok(f);
            }
            Err(refusal::refuse(Reason::WrongKind, 0))
        }
        Err(r) => Err(r),
    }
}

// "n is 256 or 512"
fn is_psf1_count(n: usize) -> bool
    ensures { result ≡ is_psf1_count n }
{
    if n == 256 {
        return true;
    }
    n == 512
}

// Refusal 18 to PSF1.
#[tactic(auto, using(crate::proofs::Cases::width_other))]
fn suits_psf1(f: Font) -> Result<(), Refusal>
    ensures { result ≡ suits_psf1 f }
{
    if !is_psf1_count(f.count) {
        return Err(refusal::refuse(Reason::Glyphs, 16));
    }
    if f.width != 8 {
        return Err(refusal::refuse(Reason::Glyphs, 28));
    }
    Ok(())
}

// Whether the entry at `at` has a glyph, with the metrics (height, 0, 0, width, width). Asks that the entry stands in the file, and for a height and
// a width within the formats' bounds.
fn is_even(file: &[u8], height: usize, width: usize, at: usize) -> bool
    requires { (at + 18 ≤ length file.now) × (height ≤ 255) × (width ≤ 255) }
    ensures { result ≡ is_even file.now height width at }
{
    base::get32(file, at + 4) != 0
        && entries::metrics_at(file, at) == bitmap::even_metrics(height, width)
}

// The first of n entries of the table that begins at `start` that is not even. Asks that they stand in the file, and for a height
// and a width within the formats' bounds.
fn first_uneven(file: &[u8], height: usize, width: usize, n: usize, start: usize) -> Option<usize>
    requires { (entry_at start n ≤ length file.now) × (height ≤ 255) × (width ≤ 255) }
    ensures { result ≡ evenness file.now height width start n 0 }
{
    for i in 0..n {
        if !is_even(file, height, width, start + i * Vfont2::ENTRY_LEN) {
            return Some(i);
        }
    }
    None
}

// Refusal 18 from vfont2. Asks for a vfont2 font whose parts stand in the file.
fn suits_psf2(file: &[u8], f: Font) -> Result<(), Refusal>
    requires { Placed file.now f × (f.kind ≡ vfont2) }
    ensures { result ≡ even_suits f (evenness file.now f.height f.width f.entries f.count 0) }
{
    let e = first_uneven(file, f.height, f.width, f.count, f.entries);
    match e {
        None => Ok(()),
        Some(i) => Err(refusal::refuse_at(Reason::Glyphs, f.entries + i * Vfont2::ENTRY_LEN, i)),
    }
}

// Refusal 18. Asks for a font of the conversion's kind whose parts stand in the file.
fn check_glyphs(c: Conversion, file: &[u8], f: Font) -> Result<(), Refusal>
    requires { Placed file.now f × (f.kind ≡ source_kind c) }
    ensures { result ≡ suits_of c file.now f }
{
    match c {
        Conversion::Psf1ToPsf2 => Ok(()),
        Conversion::Psf2ToPsf1 => suits_psf1(f),
        Conversion::Psf2ToVfont2 => Ok(()),
        Conversion::Vfont2ToPsf2 => suits_psf2(file, f),
    }
}

// How many bytes the table has in the target's coding, or the first value that it can't carry. Asks for a tail no longer than a file.
fn table_len(c: Conversion, tail: &[u8]) -> Result<usize, usize>
    requires { length tail.now ≤ 1048576 }
    ensures equal { result ≡ measured_of c tail.now }
    ensures bounded { MeasuredWithin (length tail.now) result }
{
    match c {
        Conversion::Psf1ToPsf2 => transcode::table_len(Coding::Ucs2, Coding::Utf8, tail),
        Conversion::Psf2ToPsf1 => transcode::table_len(Coding::Utf8, Coding::Ucs2, tail),
        Conversion::Psf2ToVfont2 => Ok(tail.len()),
        Conversion::Vfont2ToPsf2 => Ok(tail.len()),
    }
}

// How many bytes stand before the table. Asks for a font within the formats' bounds.
fn front_len(c: Conversion, f: Font) -> usize
    requires { (f.count ≤ 4096) × (f.height ≤ 255) × (f.width ≤ 255) }
    ensures { (result ≡ front_len c f) × (result ≤ 33500000) }
{
    let kind = target_of(c);
    let size = header::glyph_bytes(f.height, f.width);
    header_len(kind) + f.count * entry_len(kind) + f.count * size
}

// Refusal 20, or that the output fits in a file.
#[tactic(auto, using(crate::proofs::Cases::too_large))]
fn fit(f: Font, need: usize) -> Result<(Font, usize), Refusal>
    ensures { result ≡ fitting f need }
{
    if header::LIMIT < need {
        return Err(refusal::refuse(Reason::Size, 0));
    }
    Ok((f, need))
}

// The glyph that a tail's answer tells.
fn glyph_in(a: Result<(), Refusal>) -> usize
    ensures { result ≡ glyph_told a }
{
    match a {
        Ok(()) => refusal::NO_GLYPH,
        Err(r) => r.glyph,
    }
}

// The glyph that is told where a font's table is cut at a place of its tail: so many descriptions are complete before it. Counted only where a value
// is refused, so that measuring counts none. Asks for a font whose parts stand in the file, and for a place in its tail.
fn glyph_at(f: Font, file: &[u8], k: usize) -> usize
    requires { Placed file.now f × (f.end + k ≤ length file.now) }
    ensures { result ≡ glyph_at f (tail_of file.now f) k }
{
    let to = f.end + k;
    glyph_in(stages::check_font_table(&file[..to], f))
}

// Refusals 19 and 20. Asks for a font whose parts stand in the file.
fn measured(c: Conversion, file: &[u8], f: Font) -> Result<(Font, usize), Refusal>
    requires { Placed file.now f }
    ensures { result ≡ measured_then c f (tail_of file.now f) (measured_of c (tail_of file.now f)) }
{
    let end = f.end;
    let m = table_len(c, &file[end..]);
    match m {
        Ok(t) => fit(f, front_len(c, f) + t),
        Err(k) => Err(refusal::refuse_at(Reason::Value, end + k, glyph_at(f, file, k))),
    }
}

// Refusals 18 to 20. Asks for a font of the conversion's kind whose parts stand in the file.
fn prepare_font(c: Conversion, file: &[u8], f: Font) -> Result<(Font, usize), Refusal>
    requires { Placed file.now f × (f.kind ≡ source_kind c) }
    ensures { result ≡ prepared_on c file.now f }
{
    check_glyphs(c, file, f)?;
    measured(c, file, f)
}

// The font's own refusal, then 17 to 20; or the font and how long the output is.
pub fn prepare(c: Conversion, file: &[u8]) -> Result<(Font, usize), Refusal>
    ensures { result ≡ prepared_of c file.now }
{
    let f = opened(file, source_of(c))?;
    prepare_font(c, file, f)
}
