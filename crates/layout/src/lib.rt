// Inner layer: writers for the parts of a font, each to the front of the part that it is lent. Definitions: specs/Reading.antt. Each asks
// for room, and for numbers that its bytes can hold: the callers work out the size from a checked font.
#![tactic(auto)]

ghost use Rattle.std.specs.Prelude.{◌≡◌, ◌*◌, ◌≤◌, ◌<◌, length};
ghost use Rattle.base.specs.Reading.{over};
ghost use Rattle.header.specs.declared.Kind.TheVariants.{Vfont2 as vfont2};
ghost use Rattle.header.specs.Meaning.{char_size, header_len, entry_len};
ghost use Rattle.header.specs.Reading.{header_bytes};
ghost use Rattle.header.specs.Bounds.{Placed};
ghost use Rattle.entries.specs.Meaning.{entry_at};
ghost use Rattle.layout.specs.Bounds.{GlyphsStand};
ghost use Rattle.layout.specs.Reading.{metrics_bytes, entry_bytes, entries_at, evenly, dispatch_bytes, gathered, glyphs_in};

use header::{Font, Format, Kind, LongHeader};
use psf1::Psf1;
use psf2::Psf2;
use vfont2::Vfont2;

// A kind's header. Asks for numbers that the header holds, and for room. Not `header::Fields`: it has the header's length too, which is the kind's
// own, and each caller would make one to have it taken apart here.
pub fn put_header(
    kind: Kind,
    table: bool,
    n: usize,
    size: usize,
    height: usize,
    width: usize,
    out: &mut [u8],
)
    requires { (n ≤ 4096) × (size < 4294967296) × (height ≤ 255) × (width ≤ 255) × (header_len kind ≤ length out.old) }
    ensures { out.new ≡ over (header_bytes kind table n size height width) out.old }
{
    match kind {
        Kind::Psf1 => Psf1::put_header(table, n, height, out),
        Kind::Psf2 => Psf2::put_header(table, n, size, height, width, out),
        Kind::Vfont2 => Vfont2::put_header(table, n, size, height, width, out),
    }
}

// The metrics of a glyph that fills its height and width.
fn put_metrics(height: usize, width: usize, out: &mut [u8])
    requires { (height < 65536) × (width < 65536) × (10 ≤ length out.old) }
    ensures { out.new ≡ over (metrics_bytes height width) out.old }
{
    base::put16(height as u32, &mut out[0..]);
    base::put16(0, &mut out[2..]);
    base::put16(0, &mut out[4..]);
    base::put16(width as u32, &mut out[6..]);
    base::put16(width as u32, &mut out[8..]);
}

// The entry of a glyph of so many bytes that fills its height and width, wherever its bitmap stands.
pub fn put_entry(address: usize, size: usize, height: usize, width: usize, out: &mut [u8])
    requires { (address < 4294967296) × (size < 4294967296) × (height < 65536) × (width < 65536) × (18 ≤ length out.old) }
    ensures { out.new ≡ over (entry_bytes address size height width) out.old }
{
    base::put32(address as u32, &mut out[0..]);
    base::put32(size as u32, &mut out[4..]);
    put_metrics(height, width, &mut out[8..]);
}

// The dispatch table of n glyphs of one size, end to end.
fn put_entries(n: usize, size: usize, height: usize, width: usize, out: &mut [u8])
    requires { (n ≤ 4096) × (size ≤ 8160) × (height ≤ 255) × (width ≤ 255) × (n * 18 ≤ length out.old) }
    ensures { out.new ≡ over (entries_at size height width (evenly size 0 n)) out.old }
{
    for i in 0..n {
        let at = i * Vfont2::ENTRY_LEN;
        put_entry(i * size, size, height, width, &mut out[at..]);
    }
}

// The dispatch table of a kind that has one, of n glyphs of one size, end to end.
pub fn put_dispatch(kind: Kind, n: usize, size: usize, height: usize, width: usize, out: &mut [u8])
    requires { (n ≤ 4096) × (size ≤ 8160) × (height ≤ 255) × (width ≤ 255) × (n * entry_len kind ≤ length out.old) }
    ensures { out.new ≡ over (dispatch_bytes kind size height width (evenly size 0 n)) out.old }
{
    match kind {
        Kind::Psf1 => {}
        Kind::Psf2 => {}
        Kind::Vfont2 => put_entries(n, size, height, width, out),
    }
}

// The bitmaps of the n glyphs of a font, of so many bytes each, each from the address that its entry has.
fn put_gathered(file: &[u8], f: Font, size: usize, out: &mut [u8])
    requires { (length file.now ≤ 1048576) × (entry_at f.entries f.count ≤ length file.now) × (f.count * size ≤ length out.old)
        × GlyphsStand file.now f size }
    ensures { out.new ≡ over (gathered file.now f size 0 f.count) out.old }
{
    for i in 0..f.count {
        let entry = f.entries + i * Vfont2::ENTRY_LEN;
        let start = f.bitmaps + base::get32(file, entry) as usize;
        let at = i * size;
        base::copy(&file[start..start + size], &mut out[at..]);
    }
}

// The bitmaps of all glyphs of a font, end to end. Asks for a font whose parts stand in the file, each glyph of its height and width, and for
// room: the callers have checked both.
pub fn put_glyphs(file: &[u8], f: Font, out: &mut [u8])
    requires { Placed file.now f × (f.count * char_size f ≤ length out.old)
        × (f.kind ≡ vfont2 → GlyphsStand file.now f (char_size f)) }
    ensures { out.new ≡ over (glyphs_in file.now f) out.old }
{
    let kind = f.kind;
    let bitmaps = f.bitmaps;
    let end = f.end;
    match kind {
        Kind::Psf1 => base::copy(&file[bitmaps..end], out),
        Kind::Psf2 => base::copy(&file[bitmaps..end], out),
        Kind::Vfont2 => put_gathered(file, f, header::glyph_bytes(f.height, f.width), out),
    }
}
