// Inner layer: what the headers of the three kinds have in common: what each kind fixes (`Format`), what a header says (`Font`), the fields that
// PSF2 and vfont2 have at the same places, read and written (`LongHeader`), and the bytes of a bitmap. Each kind's own header is in crates
// `psf1`, `psf2` and `vfont2`.
// Definitions: specs/Meaning.antt (the formats), specs/Reading.antt (the checks in their order, the headers that are written).
#![tactic(auto)]

ghost use Rattle.std.specs.Prelude.{◌≡◌, ◌+◌, ◌*◌, ◌≤◌, ◌<◌, ℕ, Bool, List, ◌++◌, length, Result};
ghost use Rattle.base.specs.Reading.{over};
ghost use Rattle.header.specs.declared.Kind.{Kind};
ghost use Rattle.header.specs.declared.Kind.TheVariants.{Psf2 as psf2};
ghost use Rattle.header.specs.declared.Fields.{Fields};
ghost use Rattle.header.specs.declared.Font.{Font};
ghost use Rattle.refusal.specs.declared.Refusal.{Refusal};
ghost use Rattle.header.specs.Meaning.{header_len, row_bytes, glyph_bytes};
ghost use Rattle.header.specs.Reading.{head_of, on_fields, fields, flags_of, fixed_fields, header_bytes};
ghost use Rattle.header.specs.Bounds.{HeadWithin};

use refusal::{Reason, Refusal};

// It is read from the file, so what depends on it is a `match` where it is needed; `Format` and `LongHeader` have what a type can fix.
#[derive(Clone, Copy, Debug, PartialEq, Eq)]
pub enum Kind {
    Psf1,
    Psf2,
    Vfont2,
}

// The file limit.
pub const LIMIT: usize = 1048576;

// What an accepted font's header says: all that any other call needs. Offsets are in the file.
// A font and its file stay two parameters of the calls above, with `Placed` in their contracts. In a struct of both, as `differences::Common` has them,
// `requires { Placed file.now f } ensures { result.now ≡ tail_of file.now f }` would be `ensures { result.now ≡ tail_of o.file.now o.font }`: a clause
// less, but each caller has bytes and builds the struct, and each definition and law speaks of bytes and a font, so it is no plainer.
#[derive(Clone, Copy, Debug, PartialEq, Eq)]
pub struct Font {
    pub kind: Kind,
    pub count: usize,
    // where the dispatch table begins (the bitmaps, for a kind without one)
    pub entries: usize,
    // where the bitmaps begin
    pub bitmaps: usize,
    // bytes per glyph (PSF1, PSF2) or of all bitmaps (vfont2)
    pub size: usize,
    // greatest height and width
    pub height: usize,
    pub width: usize,
    // where the bitmaps end: the tail begins here
    pub end: usize,
    // whether the tail is a Unicode table
    pub table: bool,
}

// The fields that PSF2 and vfont2 have at the same places.
#[derive(Clone, Copy, Debug, PartialEq, Eq)]
pub struct Fields {
    pub header: usize,
    pub count: usize,
    pub size: usize,
    pub height: usize,
    pub width: usize,
    pub table: bool,
}

// The bytes of a row of so many pixels. Asks for a width that can be added to: widths are below 65,536.
pub fn row_bytes(width: usize) -> usize
    requires { width < 65536 }
    ensures { (result ≡ row_bytes width) × (result < 65536) }
{
    (width + 7) / 8
}

// The bytes of a glyph's bitmap. Asks for a height and a width within the formats' bounds: each caller has tested them.
pub fn glyph_bytes(height: usize, width: usize) -> usize
    requires { (height ≤ 255) × (width ≤ 255) }
    ensures { (result ≡ glyph_bytes height width) × (result ≤ 8160) }
{
    height * row_bytes(width)
}

// The fields that PSF2 and vfont2 have at the same places: refusals 3 to 6; and their bounds, for the sums that follow. Asks for the
// kind's header length: its constant is where that number stands.
#[tactic(auto, using(crate::proofs::Cases::head_high))]
pub fn head_of(file: &[u8], fixed: usize) -> Result<Fields, Refusal>
    requires { fixed ≡ header_len psf2 }
    ensures equal { result ≡ head_of file.now }
    ensures bounded { HeadWithin result }
{
    let len = file.len();
    if len < fixed {
        return Err(refusal::refuse(Reason::HeaderCut, len));
    }
    if base::get32(file, 4) != 0 {
        return Err(refusal::refuse(Reason::Version, 4));
    }
    let flags = base::get32(file, 12);
    if 1 < flags {
        return Err(refusal::refuse(Reason::Version, 12));
    }
    let header = base::get32(file, 8) as usize;
    if header < fixed {
        return Err(refusal::refuse(Reason::HeaderSize, 8));
    }
    if 4096 < header {
        return Err(refusal::refuse(Reason::HeaderSize, 8));
    }
    let count = base::get32(file, 16) as usize;
    if count == 0 {
        return Err(refusal::refuse(Reason::Count, 16));
    }
    if 4096 < count {
        return Err(refusal::refuse(Reason::Count, 16));
    }
    Ok(Fields {
        header: header,
        count: count,
        size: base::get32(file, 20) as usize,
        height: base::get32(file, 24) as usize,
        width: base::get32(file, 28) as usize,
        table: flags == 1,
    })
}

// "Flag bit 0 says that a table follows the bitmaps."
#[tactic(auto, unfolding(crate::specs::Reading::flags_of))]
fn flags_of(table: bool) -> u32
    ensures { result ≡ flags_of table }
{
    u32::from(table)
}

// Version, header size and flags. Asks for the kind's header length, and for room.
pub fn put_fixed(fixed: usize, table: bool, out: &mut [u8])
    requires { (fixed ≡ header_len psf2) × (12 ≤ length out.old) }
    ensures { out.new ≡ over (fixed_fields table) out.old }
{
    base::put32(0, &mut out[0..]);
    base::put32(fixed as u32, &mut out[4..]);
    base::put32(flags_of(table), &mut out[8..]);
}

// Four numbers of four bytes each. Asks for numbers that four bytes hold, and for room.
pub fn put_fields(a: usize, b: usize, c: usize, d: usize, out: &mut [u8])
    requires { (a < 4294967296) × (b < 4294967296) × (c < 4294967296) × (d < 4294967296) × (16 ≤ length out.old) }
    ensures { out.new ≡ over (fields a b c d) out.old }
{
    base::put32(a as u32, &mut out[0..]);
    base::put32(b as u32, &mut out[4..]);
    base::put32(c as u32, &mut out[8..]);
    base::put32(d as u32, &mut out[12..]);
}

// What a kind of file fixes, its magic of M bytes among it. Each kind is a type in a crate of its own, which gives the definitions' numbers and is
// proved to have them as its constants.
pub trait Format<const M: usize> {
    ghost MAGIC: { List ℕ };

    ghost HEADER_LEN: { ℕ };

    ghost ENTRY_LEN: { ℕ };

    const MAGIC: [u8; M];

    const HEADER_LEN: usize;
    // first bitmap rule: the bitmaps begin behind the header, after so many bytes for each glyph
    const ENTRY_LEN: usize;

    // Where the bitmaps of n glyphs begin, behind a header of that length. Asks for small numbers: the checks have bounded both.
    fn first_bitmap(header: usize, n: usize) -> usize
        requires { (header ≤ 4096) × (n ≤ 4096) }
        ensures { result ≡ header + n * ENTRY_LEN }
    {
        header + n * Self::ENTRY_LEN
    }

    // law: the sum above can't overflow
    ghost small: { ENTRY_LEN ≤ 18 };
}

// A kind whose header has the fields that PSF2 and vfont2 have at the same places.
pub trait LongHeader: Format<4> {
    ghost kind: { Kind };

    ghost shaped: { Fields → Result Font Refusal };

    // The font that these fields describe: refusal 7. Asks for small numbers: `head_of` has bounded them.
    fn shaped(f: Fields) -> Result<Font, Refusal>
        requires { (f.header ≤ 4096) × (f.count ≤ 4096) × (f.size < 4294967296) }
        ensures { result ≡ shaped f };

    // What the header of a file says: refusals 3 to 7.
    fn says(file: &[u8]) -> Result<Font, Refusal>
        ensures { result ≡ on_fields shaped (head_of file.now) }
    {
        let f = head_of(file, Self::HEADER_LEN)?;
        Self::shaped(f)
    }

    // The header of a file, to the front; `size` is what stands at 20. Asks for numbers that four bytes hold, and for room: the caller has worked
    // out both.
    fn put_header(table: bool, n: usize, size: usize, height: usize, width: usize, out: &mut [u8])
        requires { (n < 4294967296) × (size < 4294967296) × (height < 4294967296) × (width < 4294967296) × (32 ≤ length out.old) }
        ensures { out.new ≡ over (header_bytes kind table n size height width) out.old }
    {
        let magic = Self::MAGIC;
        base::copy(&magic, &mut out[0..]);
        put_fixed(Self::HEADER_LEN, table, &mut out[4..]);
        put_fields(n, size, height, width, &mut out[16..]);
    }

    // laws: the header's length, the magic's, and that a header is magic, fixed fields and four numbers
    ghost fixed: { Self.HEADER_LEN ≡ header_len psf2 };

    ghost four: { length Self.MAGIC ≡ 4 };

    ghost parts: { (t : Bool) (n z h w : ℕ) → Self.MAGIC ++ fixed_fields t ++ fields n z h w ≡ header_bytes kind t n z h w };
}
