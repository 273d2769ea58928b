// The public face of Lavandol: every call takes any bytes and any question. Definitions: specs/Reading.antt.
// A call answers, or gives one refusal of document 01: `refusal::number` tells the number of its reason, and it holds its place.
#![tactic(auto)]

ghost use Rattle.std.specs.Prelude.{◌≡◌, length};
ghost use Rattle.stages.specs.Reading.{check_of};
ghost use Rattle.conversion.specs.declared.Conversion.TheVariants.{Psf1ToPsf2, Psf2ToPsf1, Psf2ToVfont2, Vfont2ToPsf2};
ghost use Rattle.convert.specs.Reading.{converted_of, converted_into};
ghost use Rattle.bitmap.specs.Meaning.{view_of};
ghost use Rattle.bitmap.specs.Bounds.{PartInside};
ghost use Rattle.fonts.specs.Reading.{glyph_part_of, row_part_of, pixel_at, glyph_metrics_of, item_of, value_glyph, sequence_glyph};

use bitmap::Part;
use conversion::Conversion;
use entries::Metrics;
use header::Font;
use refusal::Refusal;
use table::Item;

// The check of a font. Refusals: 1 to 12, in their order.
pub fn check(file: &[u8]) -> Result<Font, Refusal>
    ensures { result ≡ check_of file.now }
{
    stages::check(file)
}

// Offset and length of glyph g's bytes. Refusals: the font's own (1 to 12), ASK, NO GLYPH.
#[tactic(auto, unfolding(crate::specs::Reading::glyph_part_of))]
pub fn glyph_part(file: &[u8], g: usize) -> Result<Part, Refusal>
    ensures equal { result ≡ glyph_part_of file.now g }
    ensures bounded { PartInside file.now result }
{
    let f = stages::check(file)?;
    bitmap::glyph_part(file, f, g)
}

// The part of a file that an answer names, of length 0 if refused. Asks for a part that stands in it.
fn view<'a>(file: &'a [u8], part: Result<Part, Refusal>) -> &'a [u8]
    requires { PartInside file.now part }
    ensures { result.now ≡ view_of file.now part }
{
    let Ok(p) = part else {
        return &file[..0];
    };
    let end = p.start + p.len;
    &file[p.start..end]
}

// Glyph g's bytes, of length 0 if refused: `glyph_part` says why.
pub fn glyph<'a>(file: &'a [u8], g: usize) -> &'a [u8]
    ensures { result.now ≡ view_of file.now (glyph_part_of file.now g) }
{
    view(file, glyph_part(file, g))
}

// Offset and length of row y of glyph g. Refusals: the font's own (1 to 12), ASK for the glyph, NO GLYPH, ASK for the row.
#[tactic(auto, unfolding(crate::specs::Reading::row_part_of))]
pub fn row_part(file: &[u8], g: usize, y: usize) -> Result<Part, Refusal>
    ensures equal { result ≡ row_part_of file.now g y }
    ensures bounded { PartInside file.now result }
{
    let f = stages::check(file)?;
    bitmap::row_part(file, f, g, y)
}

// The bytes of row y of glyph g, of length 0 if refused: `row_part` says why.
pub fn row<'a>(file: &'a [u8], g: usize, y: usize) -> &'a [u8]
    ensures { result.now ≡ view_of file.now (row_part_of file.now g y) }
{
    view(file, row_part(file, g, y))
}

// The pixel of row y and column x of glyph g: 1 is drawn.
// Refusals: the font's own (1 to 12), ASK for the glyph, NO GLYPH, ASK for row and column.
#[tactic(auto, unfolding(crate::specs::Reading::pixel_at))]
pub fn pixel(file: &[u8], g: usize, y: usize, x: usize) -> Result<u8, Refusal>
    ensures { result ≡ pixel_at file.now g y x }
{
    let f = stages::check(file)?;
    bitmap::pixel_at(file, f, g, y, x)
}

// The metrics of glyph g: up, down, left, right and logical width; in PSF1 and PSF2 (height, 0, 0, width, width).
// Refusals: the font's own (1 to 12), ASK, NO GLYPH.
#[tactic(auto, unfolding(crate::specs::Reading::glyph_metrics_of))]
pub fn metrics(file: &[u8], g: usize) -> Result<Metrics, Refusal>
    ensures { result ≡ glyph_metrics_of file.now g }
{
    let f = stages::check(file)?;
    bitmap::metrics(file, f, g)
}

// Item k of glyph g's description, counted from 0 in the order of the file: single, start mark, value in a sequence, end mark.
// Refusals: the font's own (1 to 12), NO TABLE, ASK.
#[tactic(auto, unfolding(crate::specs::Reading::item_of))]
pub fn item(file: &[u8], g: usize, k: usize) -> Result<Item, Refusal>
    ensures { result ≡ item_of file.now g k }
{
    let f = stages::check(file)?;
    questions::item_on(file, f, g, k)
}

// The lowest glyph that lists the value v as a single.
// Refusals: the font's own (1 to 12), NO TABLE, ASK for a value above 10FFFF, UNMAPPED.
#[tactic(auto, using(crate::proofs::Asking::table_asked, crate::proofs::Asking::none_asked), unfolding(crate::specs::Reading::value_glyph))]
pub fn find_value(file: &[u8], v: u32) -> Result<usize, Refusal>
    ensures { result ≡ value_glyph file.now v }
{
    let (_, f) = stages::check_to_table(file)?;
    questions::value_on(file, f, v)
}

// The lowest glyph that lists the sequence vs: after some start mark, exactly these values up to the next mark.
// Refusals: the font's own (1 to 12), NO TABLE, ASK for an empty sequence or a value above 10FFFF, UNMAPPED.
#[tactic(auto, using(crate::proofs::Asking::table_asked, crate::proofs::Asking::none_asked), unfolding(crate::specs::Reading::sequence_glyph))]
pub fn find_sequence(file: &[u8], vs: &[u32]) -> Result<usize, Refusal>
    ensures { result ≡ sequence_glyph file.now vs.now }
{
    let (_, f) = stages::check_to_table(file)?;
    questions::sequence_on(file, f, vs)
}

// The font as PSF2, at the front of out; its length is answered, and nothing behind it changes. This and the three conversions below are four calls,
// since C has four.
// Refusals: the font's own (1 to 12), WRONG KIND, VALUE, SIZE, ROOM. A refused call leaves out as it was.
pub fn psf1_to_psf2(file: &[u8], out: &mut [u8]) -> Result<usize, Refusal>
    ensures answer { result ≡ converted_of Psf1ToPsf2 file.now (length out.old) }
    ensures buffer { out.new ≡ converted_into Psf1ToPsf2 file.now out.old }
{
    convert::convert(Conversion::Psf1ToPsf2, file, out)
}

// The font as PSF1, as above. Refusals: the font's own (1 to 12), WRONG KIND, GLYPHS, VALUE, SIZE, ROOM.
pub fn psf2_to_psf1(file: &[u8], out: &mut [u8]) -> Result<usize, Refusal>
    ensures answer { result ≡ converted_of Psf2ToPsf1 file.now (length out.old) }
    ensures buffer { out.new ≡ converted_into Psf2ToPsf1 file.now out.old }
{
    convert::convert(Conversion::Psf2ToPsf1, file, out)
}

// The font as vfont2, as above. Refusals: the font's own (1 to 12), WRONG KIND, SIZE, ROOM.
pub fn psf2_to_vfont2(file: &[u8], out: &mut [u8]) -> Result<usize, Refusal>
    ensures answer { result ≡ converted_of Psf2ToVfont2 file.now (length out.old) }
    ensures buffer { out.new ≡ converted_into Psf2ToVfont2 file.now out.old }
{
    convert::convert(Conversion::Psf2ToVfont2, file, out)
}

// The font as PSF2, as above. Refusals: the font's own (1 to 12), WRONG KIND, GLYPHS, SIZE, ROOM.
pub fn vfont2_to_psf2(file: &[u8], out: &mut [u8]) -> Result<usize, Refusal>
    ensures answer { result ≡ converted_of Vfont2ToPsf2 file.now (length out.old) }
    ensures buffer { out.new ≡ converted_into Vfont2ToPsf2 file.now out.old }
{
    convert::convert(Conversion::Vfont2ToPsf2, file, out)
}
