// Inner layer: PSF2: its constants, its header read and written. Definitions: crates/header/specs.
#![tactic(auto)]

ghost use Rattle.std.specs.Prelude.{◌≡◌, ◌≤◌, ◌<◌, refl};
ghost use Rattle.header.specs.declared.Kind.TheVariants.{Psf2 as psf2};
ghost use Rattle.header.specs.Meaning.{magic_of, header_len, entry_len};
ghost use Rattle.header.specs.Reading.{psf2_shaped};
ghost use Rattle.header.proofs.Written.{entry_small, psf2_parts};

use header::{Fields, Font, Format, Kind, LongHeader};
use refusal::{Reason, Refusal};

#[derive(Clone, Copy)]
pub struct Psf2;

impl Format<4> for Psf2 {
    ghost MAGIC = { magic_of psf2 };

    ghost HEADER_LEN = { header_len psf2 };

    ghost ENTRY_LEN = { entry_len psf2 };

    const MAGIC: [u8; 4] = [0x72, 0xB5, 0x4A, 0x86];

    const HEADER_LEN: usize = 32;

    const ENTRY_LEN: usize = 0;

    ghost small = { entry_small psf2 };
}

impl LongHeader for Psf2 {
    ghost kind = { psf2 };

    ghost shaped = { psf2_shaped };

    // The font that these fields describe: refusal 7. Asks for small numbers: `header::head_of` has bounded them.
    fn shaped(f: Fields) -> Result<Font, Refusal>
        requires { (f.header ≤ 4096) × (f.count ≤ 4096) }
        ensures { result ≡ psf2_shaped f }
    {
        if f.height < 1 {
            return Err(refusal::refuse(Reason::Shape, 24));
        }
        if 255 < f.height {
            return Err(refusal::refuse(Reason::Shape, 24));
        }
        if f.width < 1 {
            return Err(refusal::refuse(Reason::Shape, 28));
        }
        if 255 < f.width {
            return Err(refusal::refuse(Reason::Shape, 28));
        }
        if f.size != header::glyph_bytes(f.height, f.width) {
            return Err(refusal::refuse(Reason::Shape, 20));
        }
        let bitmaps = Psf2::first_bitmap(f.header, f.count);
        Ok(Font {
            kind: Kind::Psf2,
            count: f.count,
            entries: f.header,
            bitmaps: bitmaps,
            size: f.size,
            height: f.height,
            width: f.width,
            end: f.header + f.count * f.size,
            table: f.table,
        })
    }

    ghost fixed = { refl };

    ghost four = { refl };

    ghost parts = { psf2_parts };
}
