// Answers a script of questions on fonts, read from standard input, by the public calls, and writes a line for each answer.
// `rt ci` compares the lines with those of the independent second implementation in rust/second, which also wrote the script
// (rust/vectors/src/script.rs lists the records). Nothing here is trusted: a script that is cut or wrong is read as zeros.
#![tactic(auto)]

mod answer;
mod script;

ghost use Rattle.std.specs.Iterator.{IsFinite};

use answer::{Answer, Hex, Values};
use conversion::Conversion;
use differences::Uncompared;
use entries::Metrics;
use loader::Loader;
use script::{Change, Compare, Convert, Edit, First, Question, Record, Script};
use std::io;

// How much room there is for a file, a little over the limit.
const ROOM: usize = 1048640;

// The most numbers in a buffer of a comparison.
const NUMBERS: usize = 16400;

// The greatest prime below 2^32.
const MODULUS: u64 = 4294967291;

// The current file, or what the last good conversion wrote or was kept since: the first `len` bytes.
#[derive(Drop)]
struct Buffer<'a> {
    bytes: &'a mut [u8],
    len: usize,
}

impl Buffer<'_> {
    fn filled(&self) -> &[u8] {
        &self.bytes[..self.len.min(self.bytes.len())]
    }

    // Puts bytes behind those that are there, and counts n more: both as far as there is room.
    fn append(&mut self, bytes: &[u8], n: usize) {
        let room = self.bytes.len();
        let at = self.len.min(room);
        let n = n.min(room - at);
        put(bytes, &mut self.bytes[at..]);
        self.len = at + n;
    }

    // The same with n copies of one byte.
    fn append_copies(&mut self, n: usize, b: u8) {
        let room = self.bytes.len();
        let at = self.len.min(room);
        let n = n.min(room - at);
        self.bytes[at..at + n].fill(b);
        self.len = at + n;
    }

    fn set(&mut self, at: usize, b: u8) {
        if let Some(byte) = self.bytes.get_mut(at) {
            *byte = b;
        }
    }

    fn trim(&mut self, len: usize) {
        self.len = self.len.min(len);
    }

    // Holds these bytes, as far as they fit, in place of the old ones.
    fn replace(&mut self, bytes: &[u8]) {
        self.len = put(bytes, self.bytes);
    }
}

// Puts bytes at the start of a buffer, as far as they fit, and returns how many.
fn put(bytes: &[u8], out: &mut [u8]) -> usize {
    let n = bytes.len().min(out.len());
    out[..n].copy_from_slice(&bytes[..n]);
    n
}

// The sum that rust/vectors makes of a buffer.
fn checksum<I: Iterator<Item = u32>>(numbers: I) -> u32
    requires can { I.can_next numbers }
    requires ends { IsFinite (I.remaining numbers) }
{
    numbers.fold(0, |sum: u32, n| {
        ((u64::from(sum) * 31 + u64::from(n)) % MODULUS) as u32
    })
}

// A conversion in a buffer of A5s: what it wrote is kept.
fn ask_convert(
    rt: &impl Print,
    Convert {
        number,
        conversion,
        room,
    }: Convert,
    file: &[u8],
    kept: &mut Buffer,
) -> io::Result<()> {
    let room = room.min(kept.bytes.len());
    let out = &mut kept.bytes[..room];
    out.fill(0xA5);
    let converted = match conversion {
        Conversion::Psf1ToPsf2 => fonts::psf1_to_psf2(file, out),
        Conversion::Psf2ToPsf1 => fonts::psf2_to_psf1(file, out),
        Conversion::Psf2ToVfont2 => fonts::psf2_to_vfont2(file, out),
        Conversion::Vfont2ToPsf2 => fonts::vfont2_to_psf2(file, out),
    };
    // Here, and where a font is edited or two are compared, a match has two answers: what is printed, and the length that is kept.
    let (answer, len) = match converted {
        Ok(n) => (Answer::Wrote(n), n),
        Err(r) => (Answer::Refused(r), 0),
    };
    let sum = checksum(out.iter().copied().map(u32::from));
    kept.len = len;
    println!(rt; "convert {number} {room} {answer} sum {sum}")
}

// An edit of the font in the first bytes of a buffer, with A5s behind the current file. A refusal leaves the file's length as it was.
fn ask_edit(
    rt: &impl Print,
    Edit {
        change,
        room,
        len,
        glyph,
        value,
    }: Edit,
    file: &mut Buffer,
) -> io::Result<()> {
    let room = room.min(file.bytes.len());
    let old = file.len.min(room);
    let buf = &mut file.bytes[..room];
    buf[old..].fill(0xA5);
    let (name, edited) = match change {
        Change::Add => ("add", edit::add_mapping(buf, len, glyph, value)),
        Change::Drop => ("drop", edit::drop_mapping(buf, len, glyph, value)),
    };
    let answer = match edited {
        Ok(n) => {
            file.len = n;
            Answer::Length(n)
        }
        Err(r) => Answer::Refused(r),
    };
    let sum = checksum(buf.iter().copied().map(u32::from));
    println!(rt; "{name} {room} {len} {glyph} {value:X} {answer} sum {sum}")
}

// A comparison in a buffer of A5A5A5A5s.
fn ask_differences(
    rt: &impl Print,
    Compare {
        number,
        first,
        room,
    }: Compare,
    file: &[u8],
    kept: &[u8],
) -> io::Result<()> {
    let room = room.min(NUMBERS);
    let mut numbers = [0xA5A5A5A5; NUMBERS];
    let out = &mut numbers[..room];
    print!(rt; "differences {number} {room} ")?;
    let compared = match first {
        First::File => differences::compare(file, kept, out),
        First::Kept => differences::compare(kept, file, out),
    };
    match compared {
        Ok(n) => {
            print!(rt; "pairs {n}")?;
            for number in out.iter().take(n.saturating_mul(2)) {
                print!(rt; " {number}")?;
            }
        }
        Err(Uncompared::First(r)) => print!(rt; "font 1 {}", Answer::Refused(r))?,
        Err(Uncompared::Second(r)) => print!(rt; "font 2 {}", Answer::Refused(r))?,
        Err(Uncompared::Neither(r)) => print!(rt; "font 0 {}", Answer::Refused(r))?,
    }
    println!(rt; " sum {}", checksum(out.iter().copied()))
}

// The values of a sequence, and zeros behind them.
fn values(bytes: &[u8]) -> [u32; 255] {
    let mut values = [0; 255];
    let (words, _) = bytes.as_chunks::<4>();
    for (v, word) in values.iter_mut().zip(words) {
        *v = u32::from_le_bytes(*word);
    }
    values
}

fn ask_sequence(rt: &impl Print, file: &[u8], n: u8, bytes: &[u8]) -> io::Result<()> {
    let values = values(bytes);
    let sequence = &values[..usize::from(n)];
    let answer = answer::found(fonts::find_sequence(file, sequence));
    println!(rt; "sequence {} {answer}", Values(sequence))
}

fn ask_metrics(rt: &impl Print, file: &[u8], g: usize, asked: [u16; 5]) -> io::Result<()> {
    let [a, b, c, d, e] = asked;
    let [up, down, left, right, logical] = asked.map(|v| i32::from(v.cast_signed()));
    let asked = Metrics {
        up,
        down,
        left,
        right,
        logical,
    };
    let answer = answer::measured(fonts::metrics(file, g), asked);
    println!(rt; "metrics {g} {a} {b} {c} {d} {e} {answer}")
}

// A font that comes in pieces.
fn loaded<'a, I: Iterator<Item = &'a [u8]>>(pieces: I) -> Loader
    requires can { I.can_next pieces }
    requires ends { IsFinite (I.remaining pieces) }
{
    pieces.fold(loader::fresh(), |l, piece| loader::fed(l, piece))
}

// The file in pieces of `size` bytes, the last one shorter; at 0 in one.
fn ask_load(rt: &impl Print, file: &[u8], size: u8) -> io::Result<()> {
    let len = match usize::from(size) {
        0 => file.len().max(1),
        n => n,
    };
    let l = loaded(file.chunks(len));
    let answer = answer::checked(loader::closed_answer(l));
    println!(rt; "load {size} {answer}")
}

fn ask_cuts(rt: &impl Print, file: &[u8], a: u8, b: u8) -> io::Result<()> {
    let (first, rest) = file.split_at(usize::from(a).min(file.len()));
    let (second, third) = rest.split_at(usize::from(b).min(rest.len()));
    let l = loaded([first, second, third].into_iter());
    let answer = answer::checked(loader::closed_answer(l));
    println!(rt; "cuts {a} {b} {answer}")
}

// The file in one piece, a piece after the close, and a close after the close.
fn ask_late(rt: &impl Print, file: &[u8]) -> io::Result<()> {
    let fresh = loader::fresh();
    let closed = loader::closed(loader::fed(fresh, file));
    let first = answer::taken(loader::fed_answer(fresh));
    let piece = answer::taken(loader::fed_answer(closed));
    let close = answer::checked(loader::closed_answer(loader::fed(closed, file)));
    println!(rt; "late {first} {piece} {close}")
}

// A question: its line.
fn ask(rt: &impl Print, question: Question<'_>, file: &[u8]) -> io::Result<()> {
    match question {
        Question::Check => println!(rt; "{}", answer::checked(fonts::check(file))),
        Question::Glyph(g) => {
            let part = answer::located(fonts::glyph_part(file, g));
            let bytes = Hex(fonts::glyph(file, g));
            println!(rt; "glyph {g} {part} {bytes}")
        }
        Question::Row(g, y) => {
            let part = answer::located(fonts::row_part(file, g, y));
            let bytes = Hex(fonts::row(file, g, y));
            println!(rt; "row {g} {y} {part} {bytes}")
        }
        Question::Pixel(g, y, x) => {
            let answer = answer::drawn(fonts::pixel(file, g, y, x));
            println!(rt; "pixel {g} {y} {x} {answer}")
        }
        Question::Item(g, k) => {
            let answer = answer::walked(fonts::item(file, g, k));
            println!(rt; "item {g} {k} {answer}")
        }
        Question::Value(v) => {
            let answer = answer::found(fonts::find_value(file, v));
            println!(rt; "value {v:X} {answer}")
        }
        Question::Sequence(n, bytes) => ask_sequence(rt, file, n, bytes),
        Question::Metrics(g, asked) => ask_metrics(rt, file, g, asked),
        Question::Cuts(a, b) => ask_cuts(rt, file, a, b),
        Question::Late => ask_late(rt, file),
        Question::Load(size) => ask_load(rt, file, size),
    }
}

fn label(rt: &impl Print, text: &[u8]) -> io::Result<()> {
    rt.write_all(b"# ")?;
    rt.write_all(text)?;
    rt.write_all(b"\n")
}

// Does what a record says.
fn step(
    rt: &impl Print,
    record: Record<'_>,
    file: &mut Buffer,
    kept: &mut Buffer,
) -> io::Result<()> {
    match record {
        Record::Label(text) => return label(rt, text),
        Record::New => file.len = 0,
        Record::Bytes(bytes, n) => file.append(bytes, n),
        Record::Fill(n, b) => file.append_copies(n, b),
        Record::Set(at, b) => file.set(at, b),
        Record::Trim(len) => file.trim(len),
        Record::Take => file.replace(kept.filled()),
        Record::Keep => kept.replace(file.filled()),
        Record::Edit(e) => return ask_edit(rt, e, file),
        Record::Convert(c) => return ask_convert(rt, c, file.filled(), kept),
        Record::Compare(c) => return ask_differences(rt, c, file.filled(), kept.filled()),
        Record::Ask(question) => return ask(rt, question, file.filled()),
        Record::Unknown => (),
    }
    Ok(())
}

fn play(rt: &impl Print, script: &[u8], file: &mut [u8], kept: &mut [u8]) -> io::Result<()> {
    let mut file = Buffer {
        bytes: file,
        len: 0,
    };
    let mut kept = Buffer {
        bytes: kept,
        len: 0,
    };
    for record in Script::new(script) {
        step(rt, record, &mut file, &mut kept)?;
    }
    Ok(())
}

// The same with the buffers lent as arrays. Stays apart: where `main` lends them as slices, the check runs out of stack (tried again).
fn run(
    rt: &impl Print,
    script: &[u8],
    file: &mut [u8; ROOM],
    kept: &mut [u8; ROOM],
) -> io::Result<()> {
    play(rt, script, file, kept)
}

fn main(rt: HostRuntime) -> io::Result<()> {
    let mut script = [0; 294912];
    let n = input::read_full(&mut rt.stdin(), &mut script)?;
    let mut file = [0; ROOM];
    let mut kept = [0; ROOM];
    run(&rt, &script[..n], &mut file, &mut kept)
}
