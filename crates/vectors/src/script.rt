// The records of a script: an op byte and its arguments, little endian; rust/vectors/src/script.rs lists them. Of a record that is cut the
// bytes that are left count: of a text or of a file's bytes as many as there are, of a number of two bytes the low one, of one of eight
// bytes the low half. The rest, and a number of four bytes that is cut, is read as zeros.

ghost use Rattle.std.specs.Prelude.{◌≡◌, ◌≤◌, length};
ghost use Rattle.std.specs.Iterator.{at_most};

use conversion::Conversion;

#[derive(Clone, Copy)]
pub enum Record<'a> {
    // a line of text
    Label(&'a [u8]),
    // an empty file
    New,
    // so many more bytes of the file: these, and then what stood there
    Bytes(&'a [u8], usize),
    // so many more bytes of the file, all the same
    Fill(usize, u8),
    // a byte of the file, by its place
    Set(usize, u8),
    // the file's first bytes
    Trim(usize),
    // what the last conversion wrote, or what was kept since, as the file
    Take,
    // the file kept in place of what a conversion wrote
    Keep,
    Edit(Edit),
    Convert(Convert),
    Compare(Compare),
    Ask(Question<'a>),
    // an op that means nothing
    Unknown,
}

// What is done with a mapping of a font.
#[derive(Clone, Copy)]
pub enum Change {
    Add,
    Drop,
}

// A mapping of the font in the first `len` bytes of a buffer added or dropped.
#[derive(Clone, Copy)]
pub struct Edit {
    pub change: Change,
    pub room: usize,
    pub len: usize,
    pub glyph: usize,
    pub value: u32,
}

// The file converted in a buffer. The line begins with the number that the script has for the conversion; 4 and more mean the same as 3.
#[derive(Clone, Copy)]
pub struct Convert {
    pub number: u8,
    pub conversion: Conversion,
    pub room: usize,
}

// Which font is the first of a comparison.
#[derive(Clone, Copy)]
pub enum First {
    File,
    Kept,
}

// The file and what was kept compared, in a buffer of so many numbers. The line begins with the number that the script has for the order;
// 2 and more mean the same as 1.
#[derive(Clone, Copy)]
pub struct Compare {
    pub number: u8,
    pub first: First,
    pub room: usize,
}

// A question on the file.
#[derive(Clone, Copy)]
pub enum Question<'a> {
    Check,
    Glyph(usize),
    // a glyph and its row
    Row(usize, usize),
    // a glyph, its row and the column
    Pixel(usize, usize, usize),
    // a glyph, and which item of its description
    Item(usize, usize),
    Value(u32),
    // so many values: those in these bytes, and then zeros
    Sequence(u8, &'a [u8]),
    // whether a glyph has these metrics, each as its two bytes
    Metrics(usize, [u16; 5]),
    // the file in three pieces, the first two of so many bytes
    Cuts(u8, u8),
    // a piece and a close after the close
    Late,
    // the file in pieces of so many bytes, 0: in one
    Load(u8),
}

// What is left of a script, record by record.
#[derive(Drop)]
pub struct Script<'a> {
    rest: &'a [u8],
}

impl<'a> Script<'a> {
    // From its first record on.
    pub fn new(rest: &'a [u8]) -> Self
        ensures { result.rest.now ≡ rest.now }
    {
        Script { rest }
    }

    // The next n bytes, or as many as are left. Here and below, what is left gets no longer: so the records come to an end.
    fn bytes(&mut self, n: usize) -> &'a [u8]
        ensures { length self.new.rest.now ≤ length self.old.rest.now }
    {
        let (bytes, rest) = self.rest.split_at(n.min(self.rest.len()));
        self.rest = rest;
        bytes
    }

    fn byte(&mut self) -> u8
        ensures { length self.new.rest.now ≤ length self.old.rest.now }
    {
        self.bytes(1).first().copied().unwrap_or(0)
    }

    // A number in two bytes. Read as two, since of one that is cut the low byte counts.
    fn short(&mut self) -> u16
        ensures { length self.new.rest.now ≤ length self.old.rest.now }
    {
        u16::from_le_bytes([self.byte(), self.byte()])
    }

    // A number in four bytes, 0 if it is cut.
    fn word(&mut self) -> u32
        ensures { length self.new.rest.now ≤ length self.old.rest.now }
    {
        self.bytes(4)
            .first_chunk()
            .map_or(0, |word| u32::from_le_bytes(*word))
    }

    // A length or a place in four bytes.
    fn size(&mut self) -> usize
        ensures { length self.new.rest.now ≤ length self.old.rest.now }
    {
        self.word() as usize
    }

    // An index in eight bytes. Read as two halves, since of one that is cut the low half counts.
    fn index(&mut self) -> usize
        ensures { length self.new.rest.now ≤ length self.old.rest.now }
    {
        let low = self.size();
        let high = self.size();
        (high << 32) | low
    }

    fn edit(&mut self, change: Change) -> Edit
        ensures { length self.new.rest.now ≤ length self.old.rest.now }
    {
        Edit {
            change,
            room: self.size(),
            len: self.size(),
            glyph: self.size(),
            value: self.word(),
        }
    }

    fn convert(&mut self) -> Convert
        ensures { length self.new.rest.now ≤ length self.old.rest.now }
    {
        let number = self.byte();
        let conversion = match number {
            0 => Conversion::Psf1ToPsf2,
            1 => Conversion::Psf2ToPsf1,
            2 => Conversion::Psf2ToVfont2,
            _ => Conversion::Vfont2ToPsf2,
        };
        Convert {
            number,
            conversion,
            room: self.size(),
        }
    }

    fn compare(&mut self) -> Compare
        ensures { length self.new.rest.now ≤ length self.old.rest.now }
    {
        let number = self.byte();
        Compare {
            number,
            first: if number == 0 {
                First::File
            } else {
                First::Kept
            },
            room: usize::from(self.short()),
        }
    }

    fn sequence(&mut self) -> Question<'a>
        ensures { length self.new.rest.now ≤ length self.old.rest.now }
    {
        let n = self.byte();
        Question::Sequence(n, self.bytes(4 * usize::from(n)))
    }

    // The arguments of an op, and what it means.
    fn record(&mut self, op: u8) -> Record<'a>
        ensures { length self.new.rest.now ≤ length self.old.rest.now }
    {
        match op {
            0x00 => {
                let n = self.byte();
                Record::Label(self.bytes(usize::from(n)))
            }
            0x01 => Record::New,
            0x02 => {
                let n = usize::from(self.short());
                Record::Bytes(self.bytes(n), n)
            }
            0x03 => Record::Fill(self.size(), self.byte()),
            0x04 => Record::Set(self.size(), self.byte()),
            0x05 => Record::Trim(self.size()),
            // 06 to 0F are not in use: a trim with a byte behind it
            0x06..=0x0F => {
                let len = self.size();
                self.byte();
                Record::Trim(len)
            }
            0x10 => Record::Ask(Question::Check),
            0x11 => Record::Ask(Question::Glyph(self.index())),
            0x12 => Record::Ask(Question::Row(self.index(), self.index())),
            0x13 => Record::Ask(Question::Pixel(self.index(), self.index(), self.index())),
            0x14 => Record::Ask(Question::Item(self.index(), self.index())),
            0x15 => Record::Ask(Question::Value(self.word())),
            0x16 => Record::Ask(self.sequence()),
            0x17 => {
                let glyph = self.index();
                let asked = [
                    self.short(),
                    self.short(),
                    self.short(),
                    self.short(),
                    self.short(),
                ];
                Record::Ask(Question::Metrics(glyph, asked))
            }
            0x18 => Record::Ask(Question::Cuts(self.byte(), self.byte())),
            0x19 => Record::Ask(Question::Late),
            0x1A..=0x1F => Record::Unknown,
            // 26 to 3F are not in use: the same as 20
            0x20 | 0x26..=0x3F => Record::Convert(self.convert()),
            0x21 => Record::Take,
            0x22 => Record::Edit(self.edit(Change::Add)),
            0x23 => Record::Edit(self.edit(Change::Drop)),
            0x24 => Record::Keep,
            0x25 => Record::Compare(self.compare()),
            0x40.. => Record::Ask(Question::Load(op % 64)),
        }
    }
}

impl<'a> Iterator for Script<'a> {
    type Item = Record<'a>;

    ghost remaining = { λ s. at_most (length s.rest.now) };

    fn next(&mut self) -> Option<Record<'a>> {
        let (op, rest) = self.rest.split_first()?;
        self.rest = rest;
        Some(self.record(*op))
    }
}
