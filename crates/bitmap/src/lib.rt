// Inner layer: a glyph's bitmap, its rows, its pixels and its metrics, in a font whose parts stand in the file. Definitions:
// specs/Meaning.antt (where things stand), specs/Reading.antt (what is answered). Each public function that takes a file asks that the font's
// parts stand in it (`Placed`), which the check of the font gives.
#![tactic(auto)]

ghost use Rattle.std.specs.Prelude.{◌≡◌, ◌+◌, ◌*◌, ◌≤◌, ◌<◌, length, Ok};
ghost use Rattle.header.specs.Bounds.{Placed};
ghost use Rattle.entries.specs.Reading.{entry_of};
ghost use Rattle.bitmap.specs.Meaning.{even_bitmap, even_metrics, kind_metrics, bit_of};
ghost use Rattle.bitmap.specs.Reading.{entry_located, bitmap_of, whole_of, row_of, pixel_of, metrics_of};
ghost use Rattle.bitmap.specs.Bounds.{Inside, LocatedInside, PartInside};

use entries::{Entry, Metrics};
use header::{Font, Format, Kind};
use refusal::{Reason, Refusal};
use vfont2::Vfont2;

// A bitmap's place in the file, its length, and how many rows and columns it has.
#[derive(Clone, Copy)]
pub struct Bitmap {
    pub start: usize,
    pub len: usize,
    pub height: usize,
    pub width: usize,
}

// A part of the file. Its place and no slice, since C reads offset and length (`LavPart`). `Bitmap` holds no `Part`: each of its readers would
// only go one field deeper.
#[derive(Clone, Copy)]
pub struct Part {
    pub start: usize,
    pub len: usize,
}

// Glyph g of a font whose bitmaps have one size.
fn even_bitmap(f: Font, g: usize) -> Bitmap
    requires { f.bitmaps + g * f.size ≤ 1048576 }
    ensures { result ≡ even_bitmap f g }
{
    Bitmap {
        start: f.bitmaps + g * f.size,
        len: f.size,
        height: f.height,
        width: f.width,
    }
}

// Glyph g, whose dispatch entry stands at `at`.
fn entry_located(file: &[u8], f: Font, g: usize, at: usize) -> Result<Bitmap, Refusal>
    requires { (at + 18 ≤ length file.now) × (f.bitmaps ≤ 1048576) }
    ensures { result ≡ entry_located file.now f g at (entry_of file.now f.size at) }
{
    let e = entries::entry_at(file, f.size, at);
    match e {
        Entry::Empty => Err(refusal::refuse(Reason::NoGlyph, 0)),
        Entry::Glyph(rows, cols) => Ok(Bitmap {
            start: f.bitmaps + base::get32(file, at) as usize,
            len: base::get32(file, at + 4) as usize,
            height: rows,
            width: cols,
        }),
        Entry::Broken => Err(refusal::refuse_at(Reason::Entry, at, g)),
    }
}

// Glyph g's bitmap; and that it stands in the file. Asks for a font whose header passed (`Placed`), as do all public functions here that take a file.
pub fn locate(file: &[u8], f: Font, g: usize) -> Result<Bitmap, Refusal>
    requires { Placed file.now f }
    ensures equal { result ≡ bitmap_of file.now f g }
    ensures bounded { LocatedInside file.now result }
{
    if g < f.count {
        let k = f.kind;
        return match k {
            Kind::Psf1 => Ok(even_bitmap(f, g)),
            Kind::Psf2 => Ok(even_bitmap(f, g)),
            Kind::Vfont2 => entry_located(file, f, g, f.entries + g * Vfont2::ENTRY_LEN),
        };
    }
    Err(refusal::refuse(Reason::Ask, 0))
}

// Glyph g's bytes.
pub fn glyph_part(file: &[u8], f: Font, g: usize) -> Result<Part, Refusal>
    requires { Placed file.now f }
    ensures equal { result ≡ whole_of (bitmap_of file.now f g) }
    ensures bounded { PartInside file.now result }
{
    let b = locate(file, f, g)?;
    Ok(Part {
        start: b.start,
        len: b.len,
    })
}

// Row y of a bitmap that stands in a file.
fn row_of(file: &[u8], b: Bitmap, y: usize) -> Result<Part, Refusal>
    requires { (length file.now ≤ 1048576) × Inside file.now b }
    ensures equal { result ≡ row_of (Ok b) y }
    ensures bounded { PartInside file.now result }
{
    if y < b.height {
        let stride = header::row_bytes(b.width);
        return Ok(Part {
            start: b.start + y * stride,
            len: stride,
        });
    }
    Err(refusal::refuse(Reason::Ask, 0))
}

// Row y of glyph g.
pub fn row_part(file: &[u8], f: Font, g: usize, y: usize) -> Result<Part, Refusal>
    requires { Placed file.now f }
    ensures equal { result ≡ row_of (bitmap_of file.now f g) y }
    ensures bounded { PartInside file.now result }
{
    let b = locate(file, f, g)?;
    row_of(file, b, y)
}

// Bit i of a byte, counted from the top bit. Asks for one of its eight bits.
fn bit_of(b: u8, i: usize) -> u8
    requires { i < 8 }
    ensures { result ≡ bit_of b i }
{
    (b >> (7 - i)) & 1
}

// The pixel of row y and column x of a bitmap that stands in a file.
fn pixel_of(file: &[u8], b: Bitmap, y: usize, x: usize) -> Result<u8, Refusal>
    requires { (length file.now ≤ 1048576) × Inside file.now b }
    ensures { result ≡ pixel_of file.now (Ok b) y x }
{
    if y < b.height {
        if x < b.width {
            let at = b.start + y * header::row_bytes(b.width) + x / 8;
            return Ok(bit_of(file[at], x % 8));
        }
        return Err(refusal::refuse(Reason::Ask, 0));
    }
    Err(refusal::refuse(Reason::Ask, 0))
}

// The pixel of row y and column x of glyph g.
pub fn pixel_at(file: &[u8], f: Font, g: usize, y: usize, x: usize) -> Result<u8, Refusal>
    requires { Placed file.now f }
    ensures { result ≡ pixel_of file.now (bitmap_of file.now f g) y x }
{
    let b = locate(file, f, g)?;
    pixel_of(file, b, y, x)
}

// The metrics of a glyph that fills its height and width. Asks for a height and a width within the formats' bounds.
pub fn even_metrics(height: usize, width: usize) -> Metrics
    requires { (height ≤ 255) × (width ≤ 255) }
    ensures { result ≡ even_metrics height width }
{
    Metrics {
        up: height as i32,
        down: 0,
        left: 0,
        right: width as i32,
        logical: width as i32,
    }
}

// Glyph g's metrics, by the font's kind, those of its entry where it has no bitmap. Asks for one of the font's glyphs.
pub fn kind_metrics(file: &[u8], f: Font, g: usize) -> Metrics
    requires { Placed file.now f × (g < f.count) }
    ensures { result ≡ kind_metrics file.now f g f.kind }
{
    let k = f.kind;
    match k {
        Kind::Psf1 => even_metrics(f.height, f.width),
        Kind::Psf2 => even_metrics(f.height, f.width),
        Kind::Vfont2 => entries::metrics_at(file, f.entries + g * Vfont2::ENTRY_LEN),
    }
}

// Glyph g's metrics: up, down, left, right and logical width.
pub fn metrics(file: &[u8], f: Font, g: usize) -> Result<Metrics, Refusal>
    requires { Placed file.now f }
    ensures { result ≡ metrics_of file.now f g (bitmap_of file.now f g) }
{
    locate(file, f, g)?;
    Ok(kind_metrics(file, f, g))
}
