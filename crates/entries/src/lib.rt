// Inner layer: the dispatch table of a vfont2 file. Definitions: specs/Meaning.antt (the format and its rules), specs/Reading.antt (what
// an entry, and all entries, say).
#![tactic(auto)]

ghost use Rattle.std.specs.Prelude.{◌≡◌, ◌+◌, ◌≤◌, ◌<◌, length, ◌+ℤ◌};
ghost use Rattle.base.specs.Meaning.{le16};
ghost use Rattle.entries.specs.Meaning.{entry_at, signed16, metrics_at, count_of, rows_at, cols_at};
ghost use Rattle.entries.specs.Reading.{entry_of, scan_of};

use header::Format;
use vfont2::Vfont2;

// What an entry says: no glyph, a glyph of so many rows and columns, or that it breaks a rule.
#[derive(Clone, Copy, Debug, PartialEq, Eq)]
pub enum Entry {
    Empty,
    Glyph(usize, usize),
    Broken,
}

// A glyph's metrics: how far it reaches up, down, left and right of its origin, and its logical width.
#[derive(Clone, Copy, Debug, PartialEq, Eq)]
pub struct Metrics {
    pub up: i32,
    pub down: i32,
    pub left: i32,
    pub right: i32,
    pub logical: i32,
}

// A number of two bytes as a signed one. Asks for a number of two bytes: each caller has just read it.
pub fn signed(v: u32) -> i32
    requires { v < 65536 }
    ensures { result ≡ signed16 v }
{
    i32::from((v as u16).cast_signed())
}

// The metrics of the entry at `at`. Asks that the entry stands in the file: each caller has tested the length.
pub fn metrics_at(file: &[u8], at: usize) -> Metrics
    requires { at + 18 ≤ length file.now }
    ensures { result ≡ metrics_at file.now at }
{
    Metrics {
        up: signed(base::get16(file, at + 8)),
        down: signed(base::get16(file, at + 10)),
        left: signed(base::get16(file, at + 12)),
        right: signed(base::get16(file, at + 14)),
        logical: signed(base::get16(file, at + 16)),
    }
}

// A signed number of 16 bits, moved up by 32,768 so that it is none below zero.
// For `span`, `(signed(a) + signed(b)).max(0) as u32` was tried: the search proves neither `overflow_add-signed` nor `returns`, both over ℤ.
fn raised(v: u32) -> u32
    requires { v < 65536 }
    ensures { ((v < 32768 → result ≡ v + 32768) × (32768 ≤ v → result + 32768 ≡ v)) × (result < 65536) }
{
    (v + 32768) % 65536
}

// The sum of two signed numbers of 16 bits, as a whole number, or 0 where it is below zero. Asks for numbers of two bytes: each
// caller has just read them.
pub fn span(a: u32, b: u32) -> u32
    requires { (a < 65536) × (b < 65536) }
    ensures { (result ≡ count_of (signed16 a +ℤ signed16 b)) × (result < 65536) }
{
    let sum = raised(a) + raised(b);
    if sum < 65536 {
        return 0;
    }
    sum - 65536
}

// The sum of the two numbers at `at`. Asks that they stand in the file: both callers ask for the whole entry.
fn span_at(file: &[u8], at: usize) -> usize
    requires { at + 4 ≤ length file.now }
    ensures { (result ≡ count_of (signed16 (le16 file.now at) +ℤ signed16 (le16 file.now (at + 2)))) × (result < 65536) }
{
    span(base::get16(file, at), base::get16(file, at + 2)) as usize
}

// The rows of the entry at `at`. Asks that the entry stands in the file: each caller has tested the length.
#[tactic(auto, unfolding(crate::specs::Meaning::rows_at))]
pub fn rows_at(file: &[u8], at: usize) -> usize
    requires { at + 18 ≤ length file.now }
    ensures { (result ≡ rows_at file.now at) × (result < 65536) }
{
    span_at(file, at + 8)
}

// The columns of the entry at `at`. Asks that the entry stands in the file: each caller has tested the length.
#[tactic(auto, unfolding(crate::specs::Meaning::cols_at))]
pub fn cols_at(file: &[u8], at: usize) -> usize
    requires { at + 18 ≤ length file.now }
    ensures { (result ≡ cols_at file.now at) × (result < 65536) }
{
    span_at(file, at + 12)
}

// What the entry at `at` says, where the bitmaps have `total` bytes. Asks that the entry stands in the file: each caller has
// tested the length.
pub fn entry_at(file: &[u8], total: usize, at: usize) -> Entry
    requires { at + 18 ≤ length file.now }
    ensures { result ≡ entry_of file.now total at }
{
    let size = base::get32(file, at + 4) as usize;
    if size == 0 {
        return Entry::Empty;
    }
    let rows = rows_at(file, at);
    if rows < 1 {
        return Entry::Broken;
    }
    if 255 < rows {
        return Entry::Broken;
    }
    let cols = cols_at(file, at);
    if cols < 1 {
        return Entry::Broken;
    }
    if 255 < cols {
        return Entry::Broken;
    }
    if size != header::glyph_bytes(rows, cols) {
        return Entry::Broken;
    }
    let address = base::get32(file, at) as usize;
    if total < address + size {
        return Entry::Broken;
    }
    Entry::Glyph(rows, cols)
}

// What the n entries of the table that begins at `start` say. Asks that they stand in the file: the caller has tested the length.
pub fn scan_entries(
    file: &[u8],
    total: usize,
    n: usize,
    start: usize,
) -> Result<(usize, usize), usize>
    requires { entry_at start n ≤ length file.now }
    ensures { result ≡ scan_of file.now total start n 0 0 0 }
{
    let mut height: usize = 0;
    let mut width: usize = 0;
    for i in 0..n {
        match entry_at(file, total, start + i * Vfont2::ENTRY_LEN) {
            Entry::Empty => {}
            Entry::Glyph(rows, cols) => {
                height = height.max(rows);
                width = width.max(cols);
            }
            Entry::Broken => return Err(i),
        }
    }
    Ok((height, width))
}
