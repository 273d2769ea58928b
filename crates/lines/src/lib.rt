// Inner layer: the lines of a listing, one for each glyph, from a font's table. Definitions: specs/Meaning.antt, specs/Reading.antt.
// Measured first and then written, each by its own function: ROOM tells the bytes needed, and is told before a byte is written.
#![tactic(auto)]

ghost use Rattle.std.specs.Prelude.{◌≡◌, ◌*◌, ◌≤◌, ◌<◌, length};
ghost use Rattle.base.specs.Reading.{over};
ghost use Rattle.lines.specs.Reading.{item_text, piece_of, table_text};

use coding::Coding;
use table::{Item, Items};

// How many bytes an item's text is.
fn item_len(i: Item) -> usize
    ensures { (result ≡ length (item_text i)) × (result ≤ 9) }
{
    match i {
        Item::Single(v) => 1 + text::numeral_len(16, v as usize),
        Item::Start => 1,
        Item::Value(v) => 1 + text::numeral_len(16, v as usize),
        Item::End => 1,
    }
}

// How many bytes an item's text is with the glyph's number in front, where it is fresh.
fn piece_len(fresh: bool, g: usize, i: Item) -> usize
    ensures { (result ≡ length (piece_of fresh g i)) × (g < 100000 → result ≤ 14) }
{
    let l = item_len(i);
    if fresh {
        return text::numeral_len(10, g) + l;
    }
    l
}

// An item's text to the front, and how many bytes it is. Asks for room: the caller has measured.
fn put_item(i: Item, out: &mut [u8]) -> usize
    requires { length (item_text i) ≤ length out.old }
    ensures { (result ≡ length (item_text i)) × (out.new ≡ over (item_text i) out.old) }
{
    match i {
        Item::Single(v) => text::put_value(32, v, out),
        Item::Start => text::put_byte(32, out),
        Item::Value(v) => text::put_value(43, v, out),
        Item::End => text::put_byte(10, out),
    }
}

// An item's text to the front, with the glyph's number in front of it where it is fresh. Asks for room: the caller has measured.
fn put_piece(fresh: bool, g: usize, i: Item, out: &mut [u8]) -> usize
    requires { length (piece_of fresh g i) ≤ length out.old }
    ensures { (result ≡ length (piece_of fresh g i)) × (out.new ≡ over (piece_of fresh g i) out.old) }
{
    if fresh {
        let a = text::put_numeral(10, g, out);
        let l = put_item(i, &mut out[a..]);
        return a + l;
    }
    put_item(i, out)
}

// How many bytes the lines of a tail are: one pass. Asks for a tail no longer than a file that is listed, so that the sum can't wrap.
pub fn table_len(c: Coding, tail: &[u8]) -> usize
    requires { length tail.now ≤ 65536 }
    ensures { (result ≡ length (table_text c tail.now)) × (result ≤ 14 * length tail.now) }
{
    let mut g: usize = 0;
    let mut fresh = true;
    let mut n: usize = 0;
    for item in Items::new(c, tail) {
        n += piece_len(fresh, g, item);
        fresh = item.is_end();
        if fresh {
            g += 1;
        }
    }
    n
}

// The lines of a tail to the front: one pass. Asks for room: `table_len` has measured.
pub fn put_table(c: Coding, tail: &[u8], out: &mut [u8])
    requires { length (table_text c tail.now) ≤ length out.old }
    ensures { out.new ≡ over (table_text c tail.now) out.old }
{
    let mut g: usize = 0;
    let mut fresh = true;
    let mut n: usize = 0;
    for item in Items::new(c, tail) {
        let l = put_piece(fresh, g, item, &mut out[n..]);
        n += l;
        fresh = item.is_end();
        if fresh {
            g += 1;
        }
    }
}
