// Inner layer: the entries of a vfont2 file, fed part by part. Each entry is read by the reader of the whole-file check, from the part itself
// where it stands there whole, else from the bytes held. Definitions: specs/Reading.antt.
#![tactic(auto)]

ghost use Rattle.std.specs.Prelude.{◌≡◌, ◌+◌, ◌*◌, ◌≤◌, ◌<◌, length, drop};
ghost use Rattle.entryfeed.specs.Reading.{sums_of, entries_read, entries_fed};

use header::Format;
use unfinished::Held;
use vfont2::Vfont2;

// What the entries so far say: the place of the first that breaks a rule, 0 while there is none, and the greatest numbers of rows and
// columns. Numbers alone, since they stand in the record that C keeps (`loader::Loader`): an Option there could be none.
#[repr(C)]
#[derive(Clone, Copy)]
pub struct Sums {
    pub broken: usize,
    pub height: usize,
    pub width: usize,
}

// What they say after a part, and the bytes of the entry that it left unfinished.
// `tablefeed::Fed` differs in the type of one field. A generic struct of both is no plainer: the definitions of both crates name the field.
#[derive(Clone, Copy)]
pub struct Fed {
    pub held: Held,
    pub sums: Sums,
}

// Before the first entry.
// By hand and no derived `Default`, whose contract says of each field only that it is its own default; here each number is said.
pub fn no_sums() -> Sums
    ensures { (result.broken ≡ 0) × (result.height ≡ 0) × (result.width ≡ 0) }
{
    Sums {
        broken: 0,
        height: 0,
        width: 0,
    }
}

// The sums with k entries more, which stand in s from `start` on; the first byte of s stands at `at` in the file. Asks that they stand in s
// and that s lies within the file limit: each caller has counted.
#[tactic(auto, using(crate::proofs::Feeding::already))]
fn more_sums(size: usize, at: usize, x: Sums, s: &[u8], start: usize, k: usize) -> Sums
    requires { (start + k * 18 ≤ length s.now) × (at + length s.now ≤ 1048576) }
    ensures { result ≡ sums_of size (at + start) x (drop start s.now) k }
{
    if x.broken != 0 {
        return x;
    }
    let r = entries::scan_entries(s, size, k, start);
    match r {
        Err(i) => Sums {
            broken: at + start + i * Vfont2::ENTRY_LEN,
            height: 0,
            width: 0,
        },
        Ok((h, w)) => Sums {
            broken: 0,
            height: x.height.max(h),
            width: x.width.max(w),
        },
    }
}

// A part from `start` on, where an entry begins. Asks for a start in the part, and for a part within the file limit.
fn from_entry(size: usize, at: usize, x: Sums, part: &[u8], start: usize) -> Fed
    requires { (start ≤ length part.now) × (at + length part.now ≤ 1048576) }
    ensures { result ≡ entries_read size (at + start) x (drop start part.now) }
{
    let k = (part.len() - start) / Vfont2::ENTRY_LEN;
    let end = start + k * Vfont2::ENTRY_LEN;
    Fed {
        held: Held::hold(&part[end..]),
        sums: more_sums(size, at, x, part, start, k),
    }
}

// A part of the dispatch table, whose first byte stands at `at` in the file, behind the bytes held. Asks for less than an entry held, and for
// a part within the file limit: the loader has tested both.
pub fn feed(size: usize, at: usize, h: Held, x: Sums, part: &[u8]) -> Fed
    requires { (h.len < 18) × (h.len < at) × (at + length part.now ≤ 1048576) }
    ensures { result ≡ entries_fed size at h x part.now }
{
    let k = h.len;
    if k == 0 {
        return from_entry(size, at, x, part, 0);
    }
    let rest = Vfont2::ENTRY_LEN - k;
    if part.len() < rest {
        return Fed {
            held: h.grow(part),
            sums: x,
        };
    }
    let whole = h.put(&part[..rest]);
    let bytes = whole.bytes;
    let y = more_sums(size, at - k, x, &bytes[..Vfont2::ENTRY_LEN], 0, 1);
    from_entry(size, at, y, part, rest)
}
