// Inner part: the glyphs that two fonts both have, one after the other, with how each differs. Definitions: specs/Walking.antt.

ghost use Rattle.std.specs.Prelude.{◌≤◌, length};
ghost use Rattle.header.specs.Bounds.{Placed};
ghost use Rattle.differences.specs.Placing.{placed_once};

use crate::{compared_start, item_kind};
use coding::Coding;
use glyphs::Difference;
use header::Font;

// How a glyph that both fonts have differs: in what is drawn, its metrics or its pixels, and in what is listed for it.
#[derive(Clone, Copy)]
pub struct Shared {
    pub glyph: usize,
    pub drawn: Option<Difference>,
    pub listed: Option<Difference>,
}

// A walk over these glyphs: one pass over both bitmaps, one over both tables side by side. Glyph g of n is next, and its descriptions begin at places
// x and y of the tails s and t, in the codings c and d.
#[derive(Clone, Copy, Drop)]
pub struct Common<'a> {
    pub a: &'a [u8],
    pub f: Font,
    pub s: &'a [u8],
    pub b: &'a [u8],
    pub h: Font,
    pub t: &'a [u8],
    pub c: Coding,
    pub d: Coding,
    pub n: usize,
    pub g: usize,
    pub x: usize,
    pub y: usize,
    pub ghost first: { Placed a.now f } by { placed_once a.now f },
    pub ghost second: { Placed b.now h } by { placed_once b.now h },
    pub ghost both: { (n ≤ f.count) × (n ≤ h.count) },
    pub ghost inside: { (x ≤ length s.now) × (y ≤ length t.now) },
}

impl<'a> Common<'a> {
    ghost use Rattle.std.specs.Prelude.{◌≡◌};
    ghost use Rattle.differences.specs.Reading.{common_pairs};
    ghost use Rattle.differences.specs.Walking.{glyphs_left, pairs_left};

    // The walk from the first glyph on. Asks for fonts whose parts stand in the files.
    pub fn new(a: &'a [u8], f: Font, b: &'a [u8], h: Font) -> Common<'a>
        requires { Placed a.now f × Placed b.now h }
        ensures pairs { pairs_left result ≡ common_pairs a.now f b.now h }
        ensures glyphs { (glyphs_left result).bound ≤ 4096 }
    {
        Common {
            a: a,
            f: f,
            c: stages::coding_of(f.kind),
            s: &a[compared_start(a.len(), f, h)..],
            b: b,
            h: h,
            d: stages::coding_of(h.kind),
            t: &b[compared_start(b.len(), h, f)..],
            n: f.count.min(h.count),
            g: 0,
            x: 0,
            y: 0,
        }
    }
}

impl<'a> Iterator for Common<'a> {
    type Item = Shared;

    ghost use Rattle.differences.specs.Walking.{glyphs_left, GivesPairs};

    ghost next_gives = { GivesPairs };

    ghost remaining = { glyphs_left };

    fn next(&mut self) -> Option<Shared> {
        if self.n <= self.g {
            return None;
        }
        // Before the bitmaps, in codings that the walk keeps: else two PSF1 fonts take 1.03 of the instructions.
        let e = descriptions::compare(self.c, self.s, self.x, self.d, self.t, self.y);
        let g = self.g;
        self.g = g + 1;
        self.x = e.first;
        self.y = e.second;
        Some(Shared {
            glyph: g,
            drawn: glyphs::compare(self.a, self.f, self.b, self.h, g),
            listed: item_kind(e.same),
        })
    }
}
