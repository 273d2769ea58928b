// The text of a font's listing, written to a lent buffer: what the program `fontlist` calls, and anyone may. Definitions: specs/Meaning.antt, specs/Reading.antt.
#![tactic(auto)]

ghost use Rattle.std.specs.Prelude.{◌≡◌, ◌+◌, ◌≤◌, ◌<◌, length};
ghost use Rattle.base.specs.Reading.{over};
ghost use Rattle.header.specs.Bounds.{Placed};
ghost use Rattle.words.specs.Meaning.{refused_text};
ghost use Rattle.listing.specs.Meaning.{kind_text, table_word, first_line};
ghost use Rattle.listing.specs.Reading.{lines_text, font_text, listing_of, listed_of, left_of};

use header::{Font, Kind};
use refusal::{Reason, Refusal};

// The name of a kind and a blank. Asks for room: the caller has measured.
fn put_kind(kind: Kind, out: &mut [u8]) -> usize
    requires { length (kind_text kind) ≤ length out.old }
    ensures { (result ≡ length (kind_text kind)) × (out.new ≡ over (kind_text kind) out.old) }
{
    match kind {
        Kind::Psf1 => text::put_text(b"psf1 ", out),
        Kind::Psf2 => text::put_text(b"psf2 ", out),
        Kind::Vfont2 => text::put_text(b"vfont2 ", out),
    }
}

// `table` or `bare` and a newline. Asks for room: the caller has measured.
fn put_word(table: bool, out: &mut [u8]) -> usize
    requires { length (table_word table) ≤ length out.old }
    ensures { (result ≡ length (table_word table)) × (out.new ≡ over (table_word table) out.old) }
{
    if table {
        return text::put_text(b"table\n", out);
    }
    text::put_text(b"bare\n", out)
}

// The first line of a font. Asks for room for the longest.
fn put_first(f: Font, out: &mut [u8]) -> usize
    requires { 96 ≤ length out.old }
    ensures { (result ≡ length (first_line f)) × (out.new ≡ over (first_line f) out.old) × (result ≤ 96) }
{
    let kind = f.kind;
    let a = put_kind(kind, out);
    let b = a + text::put_number(f.count, 32, &mut out[a..]);
    let d = b + text::put_number(f.height, 32, &mut out[b..]);
    let e = d + text::put_number(f.width, 32, &mut out[d..]);
    e + put_word(f.table, &mut out[e..])
}

// How many bytes the lines of a font's table are, none for a bare one: measured first and then written, since ROOM tells the bytes needed and is told
// before a byte is written. Asks that the header passed and the file is one that is listed.
fn lines_len(file: &[u8], f: Font) -> usize
    requires { (Placed file.now f) × (length file.now ≤ 65536) }
    ensures { (result ≡ length (lines_text file.now f)) × (result ≤ 917504) }
{
    if f.table {
        return lines::table_len(stages::coding_of(f.kind), stages::tail_of(file, f));
    }
    0
}

// The lines of a font's table to the front. Asks that the header passed, and for room: `lines_len` has measured.
fn put_lines(file: &[u8], f: Font, out: &mut [u8])
    requires { (Placed file.now f) × (length (lines_text file.now f) ≤ length out.old) }
    ensures { out.new ≡ over (lines_text file.now f) out.old }
{
    if f.table {
        lines::put_table(stages::coding_of(f.kind), stages::tail_of(file, f), out);
    }
}

// A text as a listing.
fn list_text(text: &[u8], out: &mut [u8]) -> Result<usize, Refusal>
    ensures { (result ≡ listed_of text.now (length out.old)) × (out.new ≡ left_of text.now out.old) }
{
    let n = text.len();
    if out.len() < n {
        return Err(refusal::refuse(Reason::Room, n));
    }
    base::copy(text, out);
    Ok(n)
}

// The listing of a refused font.
fn list_refused(r: Refusal, out: &mut [u8]) -> Result<usize, Refusal>
    ensures equal { (result ≡ listed_of (refused_text r) (length out.old)) × (out.new ≡ left_of (refused_text r) out.old) }
    ensures bounded { length (refused_text r) ≤ 96 }
{
    let mut line = [0u8; 96];
    let n = words::put_refused(r, &mut line);
    list_text(&line[..n], out)
}

// The listing of a font whose check passed. Asks that the file is one that is listed.
fn list_font(file: &[u8], f: Font, out: &mut [u8]) -> Result<usize, Refusal>
    requires { (Placed file.now f) × (length file.now ≤ 65536) }
    ensures equal { (result ≡ listed_of (font_text file.now f) (length out.old)) × (out.new ≡ left_of (font_text file.now f) out.old) }
    ensures bounded { length (font_text file.now f) ≤ 917600 }
{
    let mut line = [0u8; 96];
    let n = put_first(f, &mut line);
    let m = lines_len(file, f);
    let total = n + m;
    if out.len() < total {
        return Err(refusal::refuse(Reason::Room, total));
    }
    base::copy(&line[..n], out);
    put_lines(file, f, &mut out[n..]);
    Ok(total)
}

// The listing of a file, whatever it holds, to the front of a buffer. Refusal: ROOM, place the bytes needed; 917,600 always suffice.
#[tactic(auto, using(crate::proofs::Answers::listing_big, crate::proofs::Answers::same_text))]
pub fn list(file: &[u8], out: &mut [u8]) -> Result<usize, Refusal>
    ensures equal { (result ≡ listed_of (listing_of file.now) (length out.old)) × (out.new ≡ left_of (listing_of file.now) out.old) }
    ensures bounded { length (listing_of file.now) ≤ 917600 }
{
    if 65536 < file.len() {
        return list_text(b"too big\n", out);
    }
    let a = stages::check(file);
    match a {
        Ok(f) => list_font(file, f, out),
        Err(r) => list_refused(r, out),
    }
}
