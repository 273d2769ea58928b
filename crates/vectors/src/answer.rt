// What the calls answer, as a line says it.

ghost use Rattle.std.specs.Prelude.{◌≡◌, IfOk, IfErr};
ghost use Rattle.std.specs.Result.{ForOk};
ghost use Rattle.glyphs.specs.Reading.{equal_metrics};
ghost use Rattle.vectors.specs.declared.answer.Answer.TheVariants.{Refused, Sound, Part as IsPart, Bit, Is, Item as IsItem, Glyph, Taken};

use bitmap::Part;
use entries::Metrics;
use header::{Font, Kind};
use refusal::Refusal;
use std::fmt;
use table::Item;

#[derive(Clone, Copy)]
pub enum Answer {
    Refused(Refusal),
    Sound(Font),
    Part(Part),
    Bit(u8),
    Is(bool),
    Item(Item),
    Glyph(usize),
    Taken,
    Wrote(usize),
    Length(usize),
}

// What a call answers, said by one of the variants above, or its refusal.
fn told<T, F: FnOnce(T) -> Answer>(answer: Result<T, Refusal>, say: F) -> Answer
    requires { ForOk answer (F.pre say) }
    ensures answered { IfOk answer (λ x. F.post say x result) }
    ensures refused { IfErr answer (λ r. result ≡ Refused r) }
{
    match answer {
        Ok(x) => say(x),
        Err(r) => Answer::Refused(r),
    }
}

pub fn checked(a: Result<Font, Refusal>) -> Answer
    ensures answered { IfOk a (λ f. result ≡ Sound f) }
    ensures refused { IfErr a (λ r. result ≡ Refused r) }
{
    told(a, |f| Answer::Sound(f))
}

pub fn located(p: Result<Part, Refusal>) -> Answer
    ensures answered { IfOk p (λ q. result ≡ IsPart q) }
    ensures refused { IfErr p (λ r. result ≡ Refused r) }
{
    told(p, |p| Answer::Part(p))
}

pub fn drawn(p: Result<u8, Refusal>) -> Answer
    ensures answered { IfOk p (λ b. result ≡ Bit b) }
    ensures refused { IfErr p (λ r. result ≡ Refused r) }
{
    told(p, |b| Answer::Bit(b))
}

// Whether the metrics are those that were asked.
#[tactic(auto, unfolding(glyphs::specs::Reading::equal_metrics))]
pub fn measured(m: Result<Metrics, Refusal>, asked: Metrics) -> Answer
    ensures answered { IfOk m (λ v. result ≡ Is (equal_metrics v asked)) }
    ensures refused { IfErr m (λ r. result ≡ Refused r) }
{
    told(m, |m| Answer::Is(m == asked))
}

pub fn walked(w: Result<Item, Refusal>) -> Answer
    ensures answered { IfOk w (λ i. result ≡ IsItem i) }
    ensures refused { IfErr w (λ r. result ≡ Refused r) }
{
    told(w, |i| Answer::Item(i))
}

pub fn found(g: Result<usize, Refusal>) -> Answer
    ensures answered { IfOk g (λ n. result ≡ Glyph n) }
    ensures refused { IfErr g (λ r. result ≡ Refused r) }
{
    told(g, |g| Answer::Glyph(g))
}

pub fn taken(a: Result<(), Refusal>) -> Answer
    ensures answered { IfOk a (λ x. result ≡ Taken) }
    ensures refused { IfErr a (λ r. result ≡ Refused r) }
{
    told(a, |_| Answer::Taken)
}

fn kind_name(k: Kind) -> &'static str {
    match k {
        Kind::Psf1 => "psf1",
        Kind::Psf2 => "psf2",
        Kind::Vfont2 => "vfont2",
    }
}

impl fmt::Display for Answer {
    fn fmt<W: fmt::Write>(&self, f: &mut fmt::Formatter<W>) -> fmt::Result {
        match *self {
            Answer::Refused(r) => write!(
                f,
                "refused {} {} {}",
                refusal::number(r.reason),
                r.place,
                r.glyph
            ),
            Answer::Sound(font) => write!(
                f,
                "sound {} {} {} {} {}",
                kind_name(font.kind),
                font.count,
                font.height,
                font.width,
                if font.table { "table" } else { "bare" }
            ),
            Answer::Part(p) => write!(f, "{} {}", p.start, p.len),
            Answer::Bit(b) => write!(f, "{b}"),
            Answer::Is(true) => write!(f, "is"),
            Answer::Is(false) => write!(f, "is not"),
            Answer::Item(Item::Single(v)) => write!(f, "single {v:X}"),
            Answer::Item(Item::Start) => write!(f, "start"),
            Answer::Item(Item::Value(v)) => write!(f, "value {v:X}"),
            Answer::Item(Item::End) => write!(f, "end"),
            Answer::Glyph(g) => write!(f, "glyph {g}"),
            Answer::Taken => write!(f, "taken"),
            Answer::Wrote(n) => write!(f, "wrote {n}"),
            Answer::Length(n) => write!(f, "length {n}"),
        }
    }
}

// Bytes, two digits each.
#[derive(Clone, Copy)]
pub struct Hex<'a>(pub &'a [u8]);

impl fmt::Display for Hex<'_> {
    fn fmt<W: fmt::Write>(&self, f: &mut fmt::Formatter<W>) -> fmt::Result {
        if self.0.is_empty() {
            return write!(f, "-");
        }
        for b in self.0 {
            write!(f, "{b:02X}")?;
        }
        Ok(())
    }
}

// The values of a sequence.
#[derive(Clone, Copy)]
pub struct Values<'a>(pub &'a [u32]);

impl fmt::Display for Values<'_> {
    fn fmt<W: fmt::Write>(&self, f: &mut fmt::Formatter<W>) -> fmt::Result {
        if self.0.is_empty() {
            return write!(f, "-");
        }
        for v in self.0 {
            write!(f, "+{v:X}")?;
        }
        Ok(())
    }
}
