// The boundary for C and Rust: every public call on numbers, slices and a loader's record, each answer one struct by value. What is lent is
// lent for the call only; nothing is allocated or kept. A conversion, an edit or a comparison changes the buffer that it is lent, and a loader's
// calls the record; no call changes anything else. Definitions: crates/answers/specs/Meaning.antt. The C side: include/lavandol.h.
#![tactic(auto)]

ghost use Rattle.std.specs.Prelude.{◌≡◌, ◌+◌, ◌≤◌, length};
ghost use Rattle.stages.specs.Reading.{check_of};
ghost use Rattle.fonts.specs.Reading.{glyph_part_of, row_part_of, pixel_at, glyph_metrics_of, item_of, value_glyph, sequence_glyph};
ghost use Rattle.conversion.specs.declared.Conversion.TheVariants.{Psf1ToPsf2, Psf2ToPsf1, Psf2ToVfont2, Vfont2ToPsf2};
ghost use Rattle.convert.specs.Reading.{converted_of, converted_into};
ghost use Rattle.edit.specs.Reading.{add_answer, add_into, drop_answer, drop_into};
ghost use Rattle.differences.specs.Reading.{compare_answer, compare_into};
ghost use Rattle.loader.specs.Reading.{fresh_of, fed_of, feed_answer, closed_of, close_answer};
ghost use Rattle.answers.specs.Meaning.{reply_told, font_answer, part_answer, metrics_answer, walk_answer, number_result, compared_answer};

use answers::{LavDifferences, LavFont, LavItem, LavMetrics, LavNumber, LavPart, LavRefusal};
use loader::Loader;

// The check of a font. Refusals: 1 to 12, in their order.
#[unsafe(no_mangle)]
pub extern "C" fn lav_check(file: &[u8]) -> LavFont
    ensures { result ≡ font_answer (check_of file.now) }
{
    fonts::check(file).into()
}

// Offset and length of glyph g's bytes: a part of the file, of length 0 at 0 where refused.
// Refusals: the font's own (1 to 12), ASK, NO GLYPH.
#[unsafe(no_mangle)]
pub extern "C" fn lav_glyph(file: &[u8], g: usize) -> LavPart
    ensures equal { result ≡ part_answer (glyph_part_of file.now g) }
    ensures inside { result.offset + result.length ≤ length file.now }
{
    fonts::glyph_part(file, g).into()
}

// Offset and length of row y of glyph g: a part of the file, of length 0 at 0 where refused.
// Refusals: the font's own (1 to 12), ASK for the glyph, NO GLYPH, ASK for the row.
#[unsafe(no_mangle)]
pub extern "C" fn lav_row(file: &[u8], g: usize, y: usize) -> LavPart
    ensures equal { result ≡ part_answer (row_part_of file.now g y) }
    ensures inside { result.offset + result.length ≤ length file.now }
{
    fonts::row_part(file, g, y).into()
}

// The pixel of row y and column x of glyph g, 1 is drawn.
// Refusals: the font's own (1 to 12), ASK for the glyph, NO GLYPH, ASK for row and column.
#[unsafe(no_mangle)]
pub extern "C" fn lav_pixel(file: &[u8], g: usize, y: usize, x: usize) -> LavNumber
    ensures { result ≡ number_result (pixel_at file.now g y x) }
{
    fonts::pixel(file, g, y, x).into()
}

// The metrics of glyph g: up, down, left, right and logical width. Refusals: the font's own (1 to 12), ASK, NO GLYPH.
#[unsafe(no_mangle)]
pub extern "C" fn lav_metrics(file: &[u8], g: usize) -> LavMetrics
    ensures { result ≡ metrics_answer (glyph_metrics_of file.now g) }
{
    fonts::metrics(file, g).into()
}

// Item k of glyph g's description, counted from 0. Refusals: the font's own (1 to 12), NO TABLE, ASK.
#[unsafe(no_mangle)]
pub extern "C" fn lav_item(file: &[u8], g: usize, k: usize) -> LavItem
    ensures { result ≡ walk_answer (item_of file.now g k) }
{
    fonts::item(file, g, k).into()
}

// The lowest glyph that lists the value v as a single.
// Refusals: the font's own (1 to 12), NO TABLE, ASK for a value above 10FFFF, UNMAPPED.
#[unsafe(no_mangle)]
pub extern "C" fn lav_find_value(file: &[u8], v: u32) -> LavNumber
    ensures { result ≡ number_result (value_glyph file.now v) }
{
    fonts::find_value(file, v).into()
}

// The lowest glyph that lists the sequence vs.
// Refusals: the font's own (1 to 12), NO TABLE, ASK for an empty sequence or a value above 10FFFF, UNMAPPED.
#[unsafe(no_mangle)]
pub extern "C" fn lav_find_sequence(file: &[u8], vs: &[u32]) -> LavNumber
    ensures { result ≡ number_result (sequence_glyph file.now vs.now) }
{
    fonts::find_sequence(file, vs).into()
}

// PSF1 to PSF2 at the front of out: the number of bytes written. A refused call leaves out as it was.
// Refusals: the font's own (1 to 12), WRONG KIND, VALUE, SIZE, ROOM.
#[unsafe(no_mangle)]
pub extern "C" fn lav_psf1_to_psf2(file: &[u8], out: &mut [u8]) -> LavNumber
    ensures answer { result ≡ number_result (converted_of Psf1ToPsf2 file.now (length out.old)) }
    ensures buffer { out.new ≡ converted_into Psf1ToPsf2 file.now out.old }
{
    fonts::psf1_to_psf2(file, out).into()
}

// PSF2 to PSF1 at the front of out: the number of bytes written. A refused call leaves out as it was.
// Refusals: the font's own (1 to 12), WRONG KIND, GLYPHS, VALUE, SIZE, ROOM.
#[unsafe(no_mangle)]
pub extern "C" fn lav_psf2_to_psf1(file: &[u8], out: &mut [u8]) -> LavNumber
    ensures answer { result ≡ number_result (converted_of Psf2ToPsf1 file.now (length out.old)) }
    ensures buffer { out.new ≡ converted_into Psf2ToPsf1 file.now out.old }
{
    fonts::psf2_to_psf1(file, out).into()
}

// PSF2 to vfont2 at the front of out: the number of bytes written. A refused call leaves out as it was.
// Refusals: the font's own (1 to 12), WRONG KIND, SIZE, ROOM.
#[unsafe(no_mangle)]
pub extern "C" fn lav_psf2_to_vfont2(file: &[u8], out: &mut [u8]) -> LavNumber
    ensures answer { result ≡ number_result (converted_of Psf2ToVfont2 file.now (length out.old)) }
    ensures buffer { out.new ≡ converted_into Psf2ToVfont2 file.now out.old }
{
    fonts::psf2_to_vfont2(file, out).into()
}

// vfont2 to PSF2 at the front of out: the number of bytes written. A refused call leaves out as it was.
// Refusals: the font's own (1 to 12), WRONG KIND, GLYPHS, SIZE, ROOM.
#[unsafe(no_mangle)]
pub extern "C" fn lav_vfont2_to_psf2(file: &[u8], out: &mut [u8]) -> LavNumber
    ensures answer { result ≡ number_result (converted_of Vfont2ToPsf2 file.now (length out.old)) }
    ensures buffer { out.new ≡ converted_into Vfont2ToPsf2 file.now out.old }
{
    fonts::vfont2_to_psf2(file, out).into()
}

// Adds the value v to glyph g of the PSF2 font in the first len bytes of buf, as its last single: the font's new length. A refused call leaves
// buf as it was.
// Refusals: ASK for a length beyond the buffer, the font's own (1 to 12), WRONG KIND, NO TABLE, ASK for the glyph, a value above 10FFFF, a
// surrogate or a noncharacter, HAVE, SIZE, ROOM.
#[unsafe(no_mangle)]
pub extern "C" fn lav_add_mapping(buf: &mut [u8], len: usize, g: usize, v: u32) -> LavNumber
    ensures answer { result ≡ number_result (add_answer buf.old len g v) }
    ensures buffer { buf.new ≡ add_into buf.old len g v }
{
    edit::add_mapping(buf, len, g, v).into()
}

// Drops the first listing of v as a single of glyph g of the PSF2 font in the first len bytes of buf: the font's new length, and the bytes
// freed are 0. A refused call leaves buf as it was.
// Refusals: ASK for a length beyond the buffer, the font's own (1 to 12), WRONG KIND, NO TABLE, ASK for the glyph, a value above 10FFFF or a
// surrogate, NOT THERE, as for any noncharacter.
#[unsafe(no_mangle)]
pub extern "C" fn lav_drop_mapping(buf: &mut [u8], len: usize, g: usize, v: u32) -> LavNumber
    ensures answer { result ≡ number_result (drop_answer buf.old len g v) }
    ensures buffer { buf.new ≡ drop_into buf.old len g v }
{
    edit::drop_mapping(buf, len, g, v).into()
}

// The differences of two fonts at the front of out, as pairs of kind and glyph: how many pairs. (6, 0) first where just one font has a table, and
// then no descriptions are compared; then by glyph, and by kind within it: 1 only in the first font, 2 only in the second, 3 metrics differ or
// just one font has no glyph there, 4 pixels differ though metrics agree, 5 items differ. A refused call leaves out as it was.
// Refusals: the first font's own (1 to 12), the second font's own, ROOM with the count of numbers needed.
#[unsafe(no_mangle)]
pub extern "C" fn lav_differences(first: &[u8], second: &[u8], out: &mut [u32]) -> LavDifferences
    ensures answer { result ≡ compared_answer (compare_answer first.now second.now (length out.old)) }
    ensures buffer { out.new ≡ compare_into first.now second.now out.old }
{
    differences::compare(first, second, out).into()
}

// A loader that has been fed nothing: the caller keeps the record, and lends it to the two calls below. Of a record that no call has made,
// `loader::is_open` says whether it is closed.
#[unsafe(no_mangle)]
pub extern "C" fn lav_loader_fresh() -> Loader
    ensures { result ≡ fresh_of }
{
    loader::fresh()
}

// What feeding a record answers.
fn fed_told(l: Loader) -> LavRefusal
    ensures { result ≡ reply_told (feed_answer l) }
{
    loader::fed_answer(l).into()
}

// What closing a record answers.
fn closed_told(l: Loader) -> LavFont
    ensures { result ≡ font_answer (close_answer l) }
{
    loader::closed_answer(l).into()
}

// Feeds a piece to a loader: the record as fed, and no refusal. Refusals: LATE for one that is closed, and the record stays as it was.
#[unsafe(no_mangle)]
pub extern "C" fn lav_loader_feed(state: &mut Loader, piece: &[u8]) -> LavRefusal
    ensures { (result ≡ reply_told (feed_answer state.old)) × (state.new ≡ fed_of state.old piece.now) }
{
    let s = *state;
    *state = loader::fed(s, piece);
    fed_told(s)
}

// Closes a loader: what the check says of all pieces joined, and the record closed, whatever that is.
// Refusals: the font's own (1 to 12), in their order; LATE for one that is closed already, and the record stays as it was.
#[unsafe(no_mangle)]
pub extern "C" fn lav_loader_close(state: &mut Loader) -> LavFont
    ensures { (result ≡ font_answer (close_answer state.old)) × (state.new ≡ closed_of state.old) }
{
    let s = *state;
    *state = loader::closed(s);
    closed_told(s)
}
