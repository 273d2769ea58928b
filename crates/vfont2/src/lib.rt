// Inner layer: vfont2: its constants, its header read and written. Definitions: crates/header/specs.
#![tactic(auto)]

ghost use Rattle.std.specs.Prelude.{◌≡◌, ◌≤◌, ◌<◌, refl};
ghost use Rattle.header.specs.declared.Kind.TheVariants.{Vfont2 as vfont2};
ghost use Rattle.header.specs.Meaning.{magic_of, header_len, entry_len};
ghost use Rattle.header.specs.Reading.{vfont2_shaped};
ghost use Rattle.header.proofs.Written.{entry_small, vfont2_parts};

use header::{Fields, Font, Format, Kind, LongHeader};
use refusal::{Reason, Refusal};

#[derive(Clone, Copy)]
pub struct Vfont2;

impl Format<4> for Vfont2 {
    ghost MAGIC = { magic_of vfont2 };

    ghost HEADER_LEN = { header_len vfont2 };

    ghost ENTRY_LEN = { entry_len vfont2 };

    const MAGIC: [u8; 4] = [0x27, 0x5B, 0xA4, 0x68];

    const HEADER_LEN: usize = 32;
    // the dispatch table: an entry of so many bytes for each glyph
    const ENTRY_LEN: usize = 18;

    ghost small = { entry_small vfont2 };
}

impl LongHeader for Vfont2 {
    ghost kind = { vfont2 };

    ghost shaped = { vfont2_shaped };

    // The font that these fields describe: refusal 7. Asks for small numbers: `header::head_of` has bounded them.
    #[tactic(auto, using(header::proofs::Cases::broad))]
    fn shaped(f: Fields) -> Result<Font, Refusal>
        requires { (f.header ≤ 4096) × (f.count ≤ 4096) × (f.size < 4294967296) }
        ensures { result ≡ vfont2_shaped f }
    {
        if 255 < f.height {
            return Err(refusal::refuse(Reason::Shape, 24));
        }
        if 255 < f.width {
            return Err(refusal::refuse(Reason::Shape, 28));
        }
        let bitmaps = Vfont2::first_bitmap(f.header, f.count);
        Ok(Font {
            kind: Kind::Vfont2,
            count: f.count,
            entries: f.header,
            bitmaps: bitmaps,
            size: f.size,
            height: f.height,
            width: f.width,
            end: bitmaps + f.size,
            table: f.table,
        })
    }

    ghost fixed = { refl };

    ghost four = { refl };

    ghost parts = { vfont2_parts };
}
