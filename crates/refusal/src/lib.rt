// Inner layer: every refusal of documents 01 and 02: why, where, and at which glyph. Definitions: specs/Meaning.antt.
#![tactic(auto)]

ghost use Rattle.std.specs.Prelude.{◌≡◌};
ghost use Rattle.refusal.specs.Meaning.{number_of, refusal, refusal_at};

// Why a call is refused, by its number: the rows of document 01's table, then those that document 02 adds.
#[derive(Clone, Copy, Debug, PartialEq, Eq)]
pub enum Reason {
    TooLong = 1,
    Kind = 2,
    HeaderCut = 3,
    Version = 4,
    HeaderSize = 5,
    Count = 6,
    Shape = 7,
    BodyCut = 8,
    Entry = 9,
    TableCut = 10,
    TableBad = 11,
    Trailing = 12,
    Ask = 13,
    NoTable = 14,
    Unmapped = 15,
    NoGlyph = 16,
    WrongKind = 17,
    Glyphs = 18,
    Value = 19,
    Size = 20,
    Room = 21,
    Late = 22,
    Line = 23,
    Have = 24,
    NotThere = 25,
}

// No glyph's number: a font has at most 4,096, from 0 on. A number and no `None`, since C reads it so and `TellsGlyph` speaks of it.
pub const NO_GLYPH: usize = 4096;

// A refusal: the reason; its place: an offset in the file, 0 where there is nothing to point at, the size needed (ROOM), a line's
// number (LINE); and the glyph that the place belongs to, 4,096 where it belongs to none.
#[derive(Clone, Copy, Debug, PartialEq, Eq)]
pub struct Refusal {
    pub reason: Reason,
    pub place: usize,
    pub glyph: usize,
}

// The refusal for a reason, at a place that belongs to no glyph.
pub fn refuse(reason: Reason, place: usize) -> Refusal
    ensures { result ≡ refusal reason place }
{
    Refusal {
        reason: reason,
        place: place,
        glyph: NO_GLYPH,
    }
}

// The refusal for a reason, at a place that belongs to a glyph.
pub fn refuse_at(reason: Reason, place: usize, glyph: usize) -> Refusal
    ensures { result ≡ refusal_at reason place glyph }
{
    Refusal {
        reason: reason,
        place: place,
        glyph: glyph,
    }
}

// The number of a reason: a function, no `From<Reason> for u32`, since README names it.
pub fn number(reason: Reason) -> u32
    ensures { result ≡ number_of reason }
{
    reason as u32
}
