// Public: a mapping added to a PSF2 font, or dropped from it, in place: the font stands at the front of a lent buffer. Definitions:
// specs/Reading.antt; what they mean is said in the crate `laws` (proofs/Edits.antt).
#![tactic(auto)]

ghost use Rattle.std.specs.Prelude.{◌≡◌, ◌≤◌, ◌<◌, length, take};
ghost use Rattle.base.specs.Reading.{over};
ghost use Rattle.utf8.specs.Meaning.{Scalar, utf8_bytes};
ghost use Rattle.header.specs.Meaning.{limit};
ghost use Rattle.header.specs.Bounds.{Placed};
ghost use Rattle.conversion.specs.Reading.{opened_of};
ghost use Rattle.header.specs.declared.Kind.TheVariants.{Psf2};
ghost use Rattle.moves.specs.Reading.{inserted};
ghost use Rattle.edit.specs.Reading.{sought_on, sought_in, sought_of, insert_answer, left_by, add_answer, add_into, drop_answer, drop_into};
ghost use Rattle.edit.specs.Bounds.{SoughtWithin, SoughtInside};

use coding::Coding;
use header::{Font, Kind};
use mapping::Mapping;
use refusal::{Reason, Refusal};

// Refusals 14 and 13, or where glyph g of a font lists v. Asks for a font whose parts stand in the file (`Placed`).
fn sought_on(file: &[u8], f: Font, g: usize, v: u32) -> Result<Mapping, Refusal>
    requires { Placed file.now f }
    ensures equal { result ≡ sought_on file.now g v f }
    ensures bounded { SoughtWithin (length file.now) v result }
{
    if f.table {
        if f.count <= g {
            return Err(refusal::refuse(Reason::Ask, 0));
        }
        if utf8::is_scalar(v) {
            let end = f.end;
            let m = mapping::locate(Coding::Utf8, stages::tail_of(file, f), g, v);
            // No method of `Mapping`: no other place moves one.
            return match m {
                Mapping::Listed(at, next) => Ok(Mapping::Listed(end + at, end + next)),
                Mapping::Unlisted(at) => Ok(Mapping::Unlisted(end + at)),
            };
        }
        return Err(refusal::refuse(Reason::Ask, 0));
    }
    Err(refusal::refuse(Reason::NoTable, 0))
}

// The font's own refusal, 17, 14 and 13, or where glyph g of the file lists v.
fn sought_in(file: &[u8], g: usize, v: u32) -> Result<Mapping, Refusal>
    ensures equal { result ≡ sought_in file.now g v (opened_of Psf2 file.now) }
    ensures bounded { SoughtWithin (length file.now) v result }
{
    let f = conversion::opened(file, Kind::Psf2)?;
    sought_on(file, f, g, v)
}

// ASK for a length beyond the buffer, then as above on the first `len` bytes.
fn sought_of(buf: &[u8], len: usize, g: usize, v: u32) -> Result<Mapping, Refusal>
    ensures equal { result ≡ sought_of buf.now len g v }
    ensures bounded { SoughtInside (length buf.now) len v result }
{
    let room = buf.len();
    if room < len {
        return Err(refusal::refuse(Reason::Ask, 0));
    }
    sought_in(&buf[..len], g, v)
}

// ASK for a noncharacter, then refusals 20 and 21, or v's bytes put into the first `len` bytes at `at`, and the new length. Asks for a font within
// the limit and the buffer, a place in it, and a scalar value: what was sought is so.
fn insert(buf: &mut [u8], len: usize, at: usize, v: u32) -> Result<usize, Refusal>
    requires { (len ≤ length buf.old) × (at ≤ len) × (len ≤ limit) × Scalar v }
    ensures answer { result ≡ insert_answer (length buf.old) len v }
    ensures buffer { buf.new ≡ left_by result (inserted at (utf8_bytes v) (take len buf.old)) buf.old }
{
    if token::is_noncharacter(v) {
        return Err(refusal::refuse(Reason::Ask, 0));
    }
    let n = utf8::len_utf8(v);
    let need = len + n;
    if header::LIMIT < need {
        return Err(refusal::refuse(Reason::Size, 0));
    }
    if buf.len() < need {
        return Err(refusal::refuse(Reason::Room, need));
    }
    moves::move_up(buf, at, len, n);
    utf8::put_utf8(v, &mut buf[at..]);
    Ok(need)
}

// Adds the value v to glyph g of the PSF2 font in the first `len` bytes of the buffer, as its last single; the font's new length is answered.
// A buffer and a length, no struct of both: C lends them so, and the font grows in the buffer.
// Every other item of every description, header, bitmaps and what stands behind the new font stay as they were.
// Refusals: ASK for a length beyond the buffer; the font's own (1 to 12); WRONG KIND; NO TABLE; ASK for the glyph, a value above 10FFFF, a
// surrogate or a noncharacter; HAVE; SIZE; ROOM. A refused call leaves the buffer as it was.
pub fn add_mapping(buf: &mut [u8], len: usize, g: usize, v: u32) -> Result<usize, Refusal>
    ensures answer { result ≡ add_answer buf.old len g v }
    ensures buffer { buf.new ≡ add_into buf.old len g v }
{
    let m = sought_of(&buf[..], len, g, v)?;
    match m {
        Mapping::Listed(_, _) => Err(refusal::refuse(Reason::Have, 0)),
        Mapping::Unlisted(at) => insert(buf, len, at, v),
    }
}

// Drops the first listing of v as a single of glyph g of the PSF2 font in the first `len` bytes of the buffer; the font's new length is
// answered. Every other item of every description, header, bitmaps and what stands behind the old font stay as they were; the bytes freed
// become 0.
// Refusals: ASK for a length beyond the buffer; the font's own (1 to 12); WRONG KIND; NO TABLE; ASK for the glyph, a value above 10FFFF or a
// surrogate; NOT THERE, as for any noncharacter. A refused call leaves the buffer as it was.
pub fn drop_mapping(buf: &mut [u8], len: usize, g: usize, v: u32) -> Result<usize, Refusal>
    ensures answer { result ≡ drop_answer buf.old len g v }
    ensures buffer { buf.new ≡ drop_into buf.old len g v }
{
    let m = sought_of(&buf[..], len, g, v)?;
    match m {
        Mapping::Listed(at, next) => {
            moves::remove(buf, len, at, next - at);
            Ok(len - (next - at))
        }
        Mapping::Unlisted(_) => Err(refusal::refuse(Reason::NotThere, 0)),
    }
}
