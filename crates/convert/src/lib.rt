// Inner layer: a font written as a file of another kind; `fonts` is the public face. Definitions: specs/Reading.antt (what a call answers
// and leaves in the buffer), crate `conversion` (the outputs, and what refuses them).
#![tactic(auto)]

ghost use Rattle.std.specs.Prelude.{◌≡◌, ◌+◌, ◌*◌, ◌≤◌, ◌<◌, length, Ok};
ghost use Rattle.base.specs.Reading.{over};
ghost use Rattle.header.specs.declared.Kind.TheVariants.{Vfont2 as vfont2};
ghost use Rattle.header.specs.Bounds.{Placed};
ghost use Rattle.layout.specs.Bounds.{GlyphsStand};
ghost use Rattle.layout.specs.Reading.{glyphs_in};
ghost use Rattle.header.specs.Meaning.{char_size};
ghost use Rattle.stages.specs.Meaning.{tail_of};
ghost use Rattle.conversion.specs.Meaning.{front_len};
ghost use Rattle.conversion.specs.Reading.{table_in, output_of, measured_of};
ghost use Rattle.convert.specs.Reading.{converted_of, converted_into};

use coding::Coding;
use conversion::Conversion;
use header::{Font, Kind};
use refusal::{Reason, Refusal};

// The number at 20: bytes per glyph, or of all n bitmaps. Asks for small numbers: the check has bounded both.
fn field_at_20(kind: Kind, n: usize, size: usize) -> usize
    requires { (n ≤ 4096) × (size ≤ 8160) }
    ensures { ((kind ≡ vfont2 → result ≡ n * size) × ((kind ≡ vfont2 → ⊥) → result ≡ size)) × (result < 4294967296) }
{
    match kind {
        Kind::Psf1 => size,
        Kind::Psf2 => size,
        Kind::Vfont2 => n * size,
    }
}

// The table in the target's coding. Asks that it carries every value, and for room: `prepare` and the caller's test give both.
fn put_table(c: Conversion, tail: &[u8], out: &mut [u8])
    requires { (measured_of c tail.now ≡ Ok (length (table_in c tail.now))) × (length (table_in c tail.now) ≤ length out.old) }
    ensures { out.new ≡ over (table_in c tail.now) out.old }
{
    match c {
        Conversion::Psf1ToPsf2 => transcode::write_table(Coding::Ucs2, Coding::Utf8, tail, out),
        Conversion::Psf2ToPsf1 => transcode::write_table(Coding::Utf8, Coding::Ucs2, tail, out),
        Conversion::Psf2ToVfont2 => base::copy(tail, out),
        Conversion::Vfont2ToPsf2 => base::copy(tail, out),
    }
}

// The output of a conversion, each part to its own stretch of the buffer. Asks for a font that the conversion is ready for, whose glyphs
// stand in the file and are all of one size, and for room: `prepare` and the caller's test give it.
fn write_font(c: Conversion, file: &[u8], f: Font, out: &mut [u8])
    requires { Placed file.now f × (measured_of c (tail_of file.now f) ≡ Ok (length (table_in c (tail_of file.now f))))
        × (length (glyphs_in file.now f) ≡ f.count * char_size f)
        × (f.kind ≡ vfont2 → GlyphsStand file.now f (char_size f))
        × (front_len c f + length (table_in c (tail_of file.now f)) ≤ length out.old) }
    ensures { out.new ≡ over (output_of c file.now f) out.old }
{
    let kind = conversion::target_of(c);
    let size = header::glyph_bytes(f.height, f.width);
    let field = field_at_20(kind, f.count, size);
    let end = f.end;
    let entries = conversion::header_len(kind);
    let bitmaps = entries + f.count * conversion::entry_len(kind);
    let table = bitmaps + f.count * size;
    layout::put_header(
        kind,
        f.table,
        f.count,
        field,
        f.height,
        f.width,
        &mut out[0..],
    );
    layout::put_dispatch(kind, f.count, size, f.height, f.width, &mut out[entries..]);
    layout::put_glyphs(file, f, &mut out[bitmaps..]);
    put_table(c, &file[end..], &mut out[table..]);
}

// A conversion. Refusals: the font's own (1 to 12), WRONG KIND, GLYPHS, VALUE, SIZE, ROOM.
pub fn convert(c: Conversion, file: &[u8], out: &mut [u8]) -> Result<usize, Refusal>
    ensures answer { result ≡ converted_of c file.now (length out.old) }
    ensures buffer { out.new ≡ converted_into c file.now out.old }
{
    let (f, need) = conversion::prepare(c, file)?;
    if out.len() < need {
        return Err(refusal::refuse(Reason::Room, need));
    }
    write_font(c, file, f, out);
    Ok(need)
}
