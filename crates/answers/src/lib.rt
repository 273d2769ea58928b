// Inner layer: each answer of the public calls as the struct that C reads, by `From`. Definitions: specs/Meaning.antt.
#![tactic(auto)]

ghost use Rattle.std.specs.Prelude.{◌≡◌};
ghost use Rattle.answers.specs.Meaning.{no_refusal, glyph_told, refusal_told, reply_told, kind_number, font_answer, part_answer, metrics_answer, walk_answer, number_result, compared_answer};

use bitmap::Part;
use differences::Uncompared;
use entries::Metrics;
use header::{Font, Kind};
use refusal::Refusal;
use table::Item;

// A refusal as C reads it, the first field of every answer: document 01's number and place, both 0 where the call is answered; and the
// glyph, 4,096 where there is none to name. Only its default, which is no refusal, and `From<Refusal>` make one.
#[repr(C)]
#[derive(Clone, Copy)]
pub struct LavRefusal {
    pub number: u32,
    pub glyph: u32,
    pub place: u64,
}

// What the check says of a sound font.
#[repr(C)]
#[derive(Clone, Copy, Default)]
pub struct LavFont {
    pub refusal: LavRefusal,
    // 1 PSF1, 2 PSF2, 3 vfont2
    pub kind: u32,
    pub count: usize,
    // greatest height and width
    pub height: usize,
    pub width: usize,
    // 1 where the font has a Unicode table
    pub table: usize,
    // offsets of the dispatch table (the bitmaps, for a kind without one) and of the bitmaps
    pub entries: usize,
    pub bitmaps: usize,
    // bytes per glyph (PSF1, PSF2) or of all bitmaps (vfont2)
    pub size: usize,
    // where the bitmaps end and the Unicode table begins
    pub end: usize,
}

// A part of the file.
#[repr(C)]
#[derive(Clone, Copy)]
pub struct LavPart {
    pub refusal: LavRefusal,
    pub offset: usize,
    pub length: usize,
}

// A glyph's metrics.
#[repr(C)]
#[derive(Clone, Copy, Default)]
pub struct LavMetrics {
    pub refusal: LavRefusal,
    pub up: i32,
    pub down: i32,
    pub left: i32,
    pub right: i32,
    pub logical: i32,
}

// An item of a description: 1 single, 2 start mark, 3 value in a sequence, 4 end mark.
#[repr(C)]
#[derive(Clone, Copy)]
pub struct LavItem {
    pub refusal: LavRefusal,
    pub kind: u32,
    pub value: u32,
}

// One number: a pixel, a glyph, a length.
#[repr(C)]
#[derive(Clone, Copy)]
pub struct LavNumber {
    pub refusal: LavRefusal,
    pub number: usize,
}

// The differences of two fonts.
#[repr(C)]
#[derive(Clone, Copy)]
pub struct LavDifferences {
    pub refusal: LavRefusal,
    // whose refusal it is: 1 the first font's, 2 the second's, 0 neither's
    pub font: u32,
    // pairs of kind and glyph
    pub count: usize,
}

// No refusal: the call is answered.
impl Default for LavRefusal {
    ghost is_default = { λ r. r ≡ no_refusal };

    fn default() -> LavRefusal {
        LavRefusal {
            number: 0,
            glyph: refusal::NO_GLYPH as u32,
            place: 0,
        }
    }
}

// A glyph number in 32 bits. Each refusal of a font has one that is at most 4,096; a loader's record that its own calls have not made may hold any.
fn glyph_told(glyph: usize) -> u32
    ensures { result ≡ glyph_told glyph }
{
    glyph.min(refusal::NO_GLYPH) as u32
}

impl From<Refusal> for LavRefusal {
    ghost from_gives = { λ r y. y ≡ refusal_told r };

    fn from(r: Refusal) -> LavRefusal {
        LavRefusal {
            number: refusal::number(r.reason),
            glyph: glyph_told(r.glyph),
            place: r.place as u64,
        }
    }
}

// What feeding a loader answers: a refusal alone.
impl From<Result<(), Refusal>> for LavRefusal {
    ghost from_gives = { λ a y. y ≡ reply_told a };

    fn from(a: Result<(), Refusal>) -> LavRefusal {
        match a {
            Ok(()) => LavRefusal::default(),
            Err(r) => r.into(),
        }
    }
}

// A kind's number in C. Neither type is this crate's, so `From<Kind> for u32` can't stand here; as discriminants of `Kind` the numbers of lavandol.h would
// stand in `header`, which C does not read, so that is no plainer.
pub fn kind_number(k: Kind) -> u32
    ensures { result ≡ kind_number k }
{
    match k {
        Kind::Psf1 => 1,
        Kind::Psf2 => 2,
        Kind::Vfont2 => 3,
    }
}

impl From<Result<Font, Refusal>> for LavFont {
    ghost from_gives = { λ a y. y ≡ font_answer a };

    fn from(a: Result<Font, Refusal>) -> LavFont {
        match a {
            Ok(f) => LavFont {
                refusal: LavRefusal::default(),
                kind: kind_number(f.kind),
                count: f.count,
                height: f.height,
                width: f.width,
                table: usize::from(f.table),
                entries: f.entries,
                bitmaps: f.bitmaps,
                size: f.size,
                end: f.end,
            },
            Err(r) => LavFont {
                refusal: r.into(),
                ..LavFont::default()
            },
        }
    }
}

impl From<Result<Part, Refusal>> for LavPart {
    ghost from_gives = { λ a y. y ≡ part_answer a };

    fn from(a: Result<Part, Refusal>) -> LavPart {
        match a {
            Ok(p) => LavPart {
                refusal: LavRefusal::default(),
                offset: p.start,
                length: p.len,
            },
            Err(r) => LavPart {
                refusal: r.into(),
                offset: 0,
                length: 0,
            },
        }
    }
}

impl From<Result<Metrics, Refusal>> for LavMetrics {
    ghost from_gives = { λ a y. y ≡ metrics_answer a };

    fn from(a: Result<Metrics, Refusal>) -> LavMetrics {
        match a {
            Ok(m) => LavMetrics {
                refusal: LavRefusal::default(),
                up: m.up,
                down: m.down,
                left: m.left,
                right: m.right,
                logical: m.logical,
            },
            Err(r) => LavMetrics {
                refusal: r.into(),
                ..LavMetrics::default()
            },
        }
    }
}

impl From<Result<Item, Refusal>> for LavItem {
    ghost from_gives = { λ a y. y ≡ walk_answer a };

    fn from(a: Result<Item, Refusal>) -> LavItem {
        match a {
            Ok(Item::Single(v)) => LavItem {
                refusal: LavRefusal::default(),
                kind: 1,
                value: v,
            },
            Ok(Item::Start) => LavItem {
                refusal: LavRefusal::default(),
                kind: 2,
                value: 0,
            },
            Ok(Item::Value(v)) => LavItem {
                refusal: LavRefusal::default(),
                kind: 3,
                value: v,
            },
            Ok(Item::End) => LavItem {
                refusal: LavRefusal::default(),
                kind: 4,
                value: 0,
            },
            Err(r) => LavItem {
                refusal: r.into(),
                kind: 0,
                value: 0,
            },
        }
    }
}

// A glyph that is found, a length that a conversion wrote or that a font has after an edit.
impl From<Result<usize, Refusal>> for LavNumber {
    ghost from_gives = { λ a y. y ≡ number_result a };

    fn from(a: Result<usize, Refusal>) -> LavNumber {
        match a {
            Ok(n) => LavNumber {
                refusal: LavRefusal::default(),
                number: n,
            },
            Err(r) => LavNumber {
                refusal: r.into(),
                number: 0,
            },
        }
    }
}

// A pixel.
impl From<Result<u8, Refusal>> for LavNumber {
    ghost from_gives = { λ a y. y ≡ number_result a };

    fn from(a: Result<u8, Refusal>) -> LavNumber {
        a.map(usize::from).into()
    }
}

impl From<Result<usize, Uncompared>> for LavDifferences {
    ghost from_gives = { λ a y. y ≡ compared_answer a };

    fn from(a: Result<usize, Uncompared>) -> LavDifferences {
        match a {
            Ok(n) => LavDifferences {
                refusal: LavRefusal::default(),
                font: 0,
                count: n,
            },
            Err(Uncompared::First(r)) => LavDifferences {
                refusal: r.into(),
                font: 1,
                count: 0,
            },
            Err(Uncompared::Second(r)) => LavDifferences {
                refusal: r.into(),
                font: 2,
                count: 0,
            },
            Err(Uncompared::Neither(r)) => LavDifferences {
                refusal: r.into(),
                font: 0,
                count: 0,
            },
        }
    }
}
