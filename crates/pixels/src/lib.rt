// Inner layer: two bitmaps compared by their pixels. Definitions: specs/Reading.antt; what the comparison means: proofs/Meaning.antt.
#![tactic(auto)]

ghost use Rattle.std.specs.Prelude.{◌≡◌, ◌+◌, ◌-◌, ◌*◌, ◌≤◌, ◌<◌, length};
ghost use Rattle.header.specs.Meaning.{glyph_bytes};
ghost use Rattle.pixels.specs.Reading.{same_bytes, same_rows, same_pixels};

// Whether the bytes from..to are the same in both. Asks that they stand in both.
fn same_bytes(p: &[u8], q: &[u8], from: usize, to: usize) -> bool
    requires { (from ≤ to) × (to ≤ length p.now) × (to ≤ length q.now) }
    ensures { result ≡ same_bytes p.now q.now from (to - from) }
{
    p[from..to] == q[from..to]
}

// Whether so many rows are the same, each of `whole` bytes and a last byte without its filler bits. Asks that the rows stand in both, and that
// the last byte has a bit that is no filler.
fn same_rows(p: &[u8], q: &[u8], height: usize, whole: usize, fillers: usize) -> bool
    requires { (height * (whole + 1) ≤ length p.now) × (height * (whole + 1) ≤ length q.now) × (fillers < 8) }
    ensures { result ≡ same_rows p.now q.now whole fillers 0 height }
{
    // By a row's number, as the definition goes: of two iterators of rows each row would still be a run and a last byte.
    for y in 0..height {
        let at = y * (whole + 1);
        let last = at + whole;
        if !same_bytes(p, q, at, last) {
            return false;
        }
        if p[last] >> fillers != q[last] >> fillers {
            return false;
        }
    }
    true
}

// Whether two bitmaps of one height and width have the same pixels: row by row, whole bytes as they are, a row's last byte without its filler
// bits. Where the width fills its bytes there are none, and all rows are one run of bytes. Asks for two bitmaps of that height and width, within
// the formats' bounds.
pub fn same_bitmaps(p: &[u8], q: &[u8], height: usize, width: usize) -> bool
    requires { (length p.now ≡ glyph_bytes height width) × (length q.now ≡ glyph_bytes height width) × (height ≤ 255) × (width ≤ 255) }
    ensures { result ≡ same_pixels p.now q.now height width }
{
    if width % 8 == 0 {
        return same_bytes(p, q, 0, p.len());
    }
    same_rows(p, q, height, width / 8, 8 - width % 8)
}
