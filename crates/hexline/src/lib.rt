// Inner layer: one line of hexadecimal as the bytes that it spells. Definitions: specs/Meaning.antt (which lines are frames),
// specs/Reading.antt (how a line is read).
#![tactic(auto)]

ghost use Rattle.std.specs.Prelude.{◌≡◌, ◌≤◌, ◌<◌, length, IfSome};
ghost use Rattle.hexline.specs.Reading.{hex_value, pair_value, frame_of};

// A frame of so many bytes, which stand in front with zeros behind them: an array, since nothing is allocated.
#[derive(Clone, Copy)]
pub struct Frame {
    pub len: usize,
    pub bytes: [u8; 64],
}

// The number that a character is as an upper-case digit, if it is one.
#[tactic(auto, using(crate::proofs::Digits::value_below, crate::proofs::Digits::value_low, crate::proofs::Digits::value_between, crate::proofs::Digits::value_high, crate::proofs::Digits::value_above))]
fn hex_value(b: u8) -> Option<u8>
    ensures equal { result ≡ hex_value b }
    ensures bounded { IfSome result (λ d. d < 16) }
{
    match b {
        b'0'..=b'9' => Some(b - b'0'),
        b'A'..=b'F' => Some(b - b'A' + 10),
        _ => None,
    }
}

// The byte that two digits spell, the high one first, if both are digits.
#[tactic(auto, using(crate::proofs::Digits::pair_both, crate::proofs::Digits::pair_first, crate::proofs::Digits::pair_second))]
fn pair_value(a: u8, b: u8) -> Option<u8>
    ensures { result ≡ pair_value a b }
{
    let high = hex_value(a)?;
    let low = hex_value(b)?;
    Some(high * 16 + low)
}

// A line, of any length, as a frame; none for a bad line.
#[tactic(auto, using(crate::proofs::Steps::too_long, crate::proofs::Steps::odd, crate::proofs::Steps::not_long, crate::proofs::Steps::ended))]
pub fn read_line(line: &[u8]) -> Option<Frame>
    ensures equal { result ≡ frame_of line.now }
    ensures bounded { IfSome result (λ f. (f.len ≤ 64) × (length f.bytes ≡ 64)) }
{
    if 128 < line.len() {
        return None;
    }
    if line.len() % 2 == 1 {
        return None;
    }
    let mut bytes = [0u8; 64];
    for (k, pair) in line.chunks_exact(2).enumerate() {
        bytes[k] = pair_value(pair[0], pair[1])?;
    }
    Some(Frame {
        len: line.len() / 2,
        bytes,
    })
}
