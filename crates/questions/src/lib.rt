// Inner layer: the questions about a table, asked of a font whose parts stand in the file (`Placed`): a walk, and two lookups that check the table in
// the same pass, with refusals 10 to 15; `fonts` is the public face. Definitions: specs/Reading.antt.
#![tactic(auto)]

ghost use Rattle.std.specs.Prelude.{◌≡◌, ◌+◌, ◌<◌, Err};
ghost use Rattle.base.specs.Meaning.{pick};
ghost use Rattle.refusal.specs.Meaning.{refusal};
ghost use Rattle.refusal.specs.declared.Reason.TheVariants.{Ask};
ghost use Rattle.header.specs.Bounds.{Placed};
ghost use Rattle.lookup.specs.Reading.{looked_place};
ghost use Rattle.stages.specs.Reading.{tabled};
ghost use Rattle.questions.specs.Reading.{item_on, value_on, any_high, askable, sequence_on, after_tail, lookup_told};

use header::Font;
use refusal::{Reason, Refusal};
use table::{Fault, Item};

// Item k of glyph g of a font whose parts stand in the file (`Placed`).
pub fn item_on(file: &[u8], f: Font, g: usize, k: usize) -> Result<Item, Refusal>
    requires { Placed file.now f }
    ensures { result ≡ item_on file.now g k f }
{
    if !f.table {
        return Err(refusal::refuse(Reason::NoTable, 0));
    }
    let item = lookup::item_at(stages::coding_of(f.kind), stages::tail_of(file, f), g, k);
    item.ok_or(refusal::refuse(Reason::Ask, 0))
}

// ASK for a question that may not be asked, else its answer.
fn if_asked(asked: bool, answer: Result<usize, Refusal>) -> Result<usize, Refusal>
    ensures { result ≡ pick asked answer (Err (refusal Ask 0)) }
{
    if asked {
        return answer;
    }
    Err(refusal::refuse(Reason::Ask, 0))
}

// What a lookup in one pass says, of a font whose table begins at `end`: the table's refusal, then ASK, then what was found. Asks for places that are
// offsets in the file.
// `asked` stands beside the answer and in no `Result`: the table's refusals come before ASK, so the table is gone over for any question.
fn told(end: usize, w: Result<Option<usize>, Fault>, asked: bool) -> Result<usize, Refusal>
    requires { end + looked_place w < 18446744073709551616 }
    ensures { result ≡ lookup_told end asked w }
{
    match w {
        Ok(Some(g)) => if_asked(asked, Ok(g)),
        Ok(None) => if_asked(asked, Err(refusal::refuse(Reason::Unmapped, 0))),
        Err(t) => Err(stages::fault_at(end, t)),
    }
}

// The lowest glyph that lists v as a single, in a font whose parts stand in the file (`Placed`): the table's refusals first. Where v may not be asked,
// looking for it is the check.
pub fn value_on(file: &[u8], f: Font, v: u32) -> Result<usize, Refusal>
    requires { Placed file.now f }
    ensures { result ≡ after_tail (value_on file.now v) (tabled file.now f) }
{
    if f.table {
        let w = lookup::find_value(
            stages::coding_of(f.kind),
            stages::tail_of(file, f),
            f.count,
            v,
        );
        return told(f.end, w, v <= 0x10FFFF);
    }
    Err(refusal::refuse(Reason::NoTable, 0))
}

// Whether some value is above 10FFFF.
fn any_high(vs: &[u32]) -> bool
    ensures { result ≡ any_high vs.now }
{
    vs.iter().any(|v| 0x10FFFF < *v)
}

// Whether a sequence may be asked.
#[tactic(auto, using(crate::proofs::Answers::ask_empty))]
fn may_ask(vs: &[u32]) -> bool
    ensures { result ≡ askable vs.now }
{
    if vs.is_empty() {
        return false;
    }
    !any_high(vs)
}

// The lowest glyph that lists the sequence vs, in a font whose parts stand in the file (`Placed`): the table's refusals first. Where vs may not be
// asked, looking for some value is the check.
pub fn sequence_on(file: &[u8], f: Font, vs: &[u32]) -> Result<usize, Refusal>
    requires { Placed file.now f }
    ensures { result ≡ after_tail (sequence_on file.now vs.now) (tabled file.now f) }
{
    if f.table {
        let c = stages::coding_of(f.kind);
        let tail = stages::tail_of(file, f);
        if may_ask(vs) {
            let w = lookup::find_sequence(c, tail, f.count, vs);
            return told(f.end, w, true);
        }
        let w = lookup::find_value(c, tail, f.count, 0);
        return told(f.end, w, false);
    }
    Err(refusal::refuse(Reason::NoTable, 0))
}
