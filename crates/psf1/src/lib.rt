// Inner layer: PSF1: its constants, its mode byte, its header read and written. Definitions: crates/header/specs.
#![tactic(auto)]

ghost use Rattle.std.specs.Prelude.{◌≡◌, ◌≤◌, ◌<◌, length};
ghost use Rattle.base.specs.Reading.{over};
ghost use Rattle.header.specs.declared.Kind.TheVariants.{Psf1 as psf1};
ghost use Rattle.header.specs.Meaning.{magic_of, header_len, entry_len, psf1_count, psf1_table};
ghost use Rattle.header.specs.Reading.{mode_of, header_bytes, psf1_says};
ghost use Rattle.header.proofs.Written.{entry_small};

use header::{Font, Format, Kind};
use refusal::{Reason, Refusal};

#[derive(Clone, Copy)]
pub struct Psf1;

impl Format<2> for Psf1 {
    ghost MAGIC = { magic_of psf1 };

    ghost HEADER_LEN = { header_len psf1 };

    ghost ENTRY_LEN = { entry_len psf1 };

    const MAGIC: [u8; 2] = [0x36, 0x04];

    const HEADER_LEN: usize = 4;

    const ENTRY_LEN: usize = 0;

    ghost small = { entry_small psf1 };
}

// No `LongHeader`: this header has other fields, a mode byte and a size byte, and its writer takes neither size nor width.
impl Psf1 {
    // "256 glyphs, or 512 if bit 0 of the mode is set"
    pub fn count_of(mode: u8) -> usize
        ensures { (result ≡ psf1_count mode) × (result ≤ 512) }
    {
        if mode % 2 == 1 {
            return 512;
        }
        256
    }

    // of bits 1 and 2 of the mode: "A table is there when either bit is set."
    pub fn table_of(mode: u8) -> bool
        ensures { result ≡ psf1_table mode }
    {
        if mode / 2 % 2 == 1 {
            return true;
        }
        mode / 4 % 2 == 1
    }

    // What the header of a PSF1 file says: refusals 3, 4 and 7.
    #[tactic(auto, using(header::proofs::Cases::psf1_mode))]
    pub fn says(file: &[u8]) -> Result<Font, Refusal>
        ensures { result ≡ psf1_says file.now }
    {
        let len = file.len();
        if len < Psf1::HEADER_LEN {
            return Err(refusal::refuse(Reason::HeaderCut, len));
        }
        let mode = file[2];
        if 5 < mode {
            return Err(refusal::refuse(Reason::Version, 2));
        }
        let size = usize::from(file[3]);
        if size == 0 {
            return Err(refusal::refuse(Reason::Shape, 3));
        }
        let count = Psf1::count_of(mode);
        Ok(Font {
            kind: Kind::Psf1,
            count: count,
            entries: Psf1::HEADER_LEN,
            bitmaps: Psf1::first_bitmap(Psf1::HEADER_LEN, count),
            size: size,
            height: size,
            width: 8,
            end: Psf1::HEADER_LEN + count * size,
            table: Psf1::table_of(mode),
        })
    }

    // "Mode is 1 for 512 glyphs plus 2 for a table."
    fn mode_of(n: usize, table: bool) -> u8
        ensures { result ≡ mode_of n table }
    {
        if n == 512 {
            if table {
                return 3;
            }
            return 1;
        }
        if table {
            return 2;
        }
        0
    }

    // The header of a PSF1 file, to the front. Asks for a height that one byte holds, and for room: the caller has worked out both.
    pub fn put_header(table: bool, n: usize, height: usize, out: &mut [u8])
        requires { (height < 256) × (4 ≤ length out.old) }
        ensures { out.new ≡ over (header_bytes psf1 table n height height 8) out.old }
    {
        let mode = Psf1::mode_of(n, table);
        out[0] = Psf1::MAGIC[0];
        out[1] = Psf1::MAGIC[1];
        out[2] = mode;
        out[3] = height as u8;
    }
}
