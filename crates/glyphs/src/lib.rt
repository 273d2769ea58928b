// Inner layer: one glyph of two fonts compared, its metrics and then its pixels. Definitions: specs/Reading.antt. Each public function asks
// that the fonts' parts stand in their files (`Placed`) and that both have the glyph, which the check and the counts give.
#![tactic(auto)]

ghost use Rattle.std.specs.Prelude.{◌≡◌, ◌+◌, ◌≤◌, ◌<◌, length, Ok};
ghost use Rattle.header.specs.Bounds.{Placed};
ghost use Rattle.bitmap.specs.Bounds.{Inside};
ghost use Rattle.bitmap.specs.Reading.{bitmap_of};
ghost use Rattle.glyphs.specs.Reading.{pixel_kind, located_kind, glyph_kind, kind_number};

use bitmap::Bitmap;
use header::Font;

// How two fonts differ, by its number in a pair of kind and glyph: 1 only in the first font, 2 only in the second, 3 metrics differ or just one font
// has no glyph there, 4 pixels differ though metrics agree, 5 items differ, 6 just one font has a table.
#[derive(Clone, Copy, Debug, PartialEq, Eq)]
pub enum Difference {
    First = 1,
    Second = 2,
    Metrics = 3,
    Pixels = 4,
    Items = 5,
    Table = 6,
}

// `Pixels` where two bitmaps of one height and width differ in a pixel, else none. Asks that they stand in their files: they were located
// there.
fn pixel_kind(a: &[u8], p: Bitmap, b: &[u8], q: Bitmap) -> Option<Difference>
    requires { Inside a.now p × Inside b.now q × (p.height ≡ q.height) × (p.width ≡ q.width) × (length a.now ≤ 1048576) × (length b.now ≤ 1048576) }
    ensures { kind_number result ≡ pixel_kind a.now p b.now q }
{
    let from = p.start;
    let to = from + p.len;
    let start = q.start;
    let end = start + q.len;
    if pixels::same_bitmaps(&a[from..to], &b[start..end], p.height, p.width) {
        return None;
    }
    Some(Difference::Pixels)
}

// How a glyph that both fonts draw differs. Asks for the bitmaps that were located.
fn drawn_kind(
    a: &[u8],
    f: Font,
    p: Bitmap,
    b: &[u8],
    h: Font,
    q: Bitmap,
    g: usize,
) -> Option<Difference>
    requires { Placed a.now f × Placed b.now h × (g < f.count) × (g < h.count) × (bitmap_of a.now f g ≡ Ok p) × (bitmap_of b.now h g ≡ Ok q) × Inside a.now p × Inside b.now q }
    ensures { kind_number result ≡ located_kind a.now f b.now h g (Ok p) (Ok q) }
{
    let v = bitmap::kind_metrics(a, f, g);
    let w = bitmap::kind_metrics(b, h, g);
    if v == w {
        return pixel_kind(a, p, b, q);
    }
    Some(Difference::Metrics)
}

// How glyph g of two fonts differs: `Metrics` where metrics differ, or just one font has no glyph there; `Pixels` where pixels differ though
// metrics agree; else none.
pub fn compare(a: &[u8], f: Font, b: &[u8], h: Font, g: usize) -> Option<Difference>
    requires { Placed a.now f × Placed b.now h × (g < f.count) × (g < h.count) }
    ensures { kind_number result ≡ glyph_kind a.now f b.now h g }
{
    let x = bitmap::locate(a, f, g);
    let y = bitmap::locate(b, h, g);
    match x {
        Ok(p) => match y {
            Ok(q) => drawn_kind(a, f, p, b, h, q, g),
            Err(_) => Some(Difference::Metrics),
        },
        Err(_) => match y {
            Ok(_) => Some(Difference::Metrics),
            Err(_) => None,
        },
    }
}
