// Text: words and numbers in decimal, written one behind another into a lent buffer.
//
// `put_bytes` writes from a place on and returns the place behind what it wrote. It promises that exactly these bytes then
// stand there and no other byte has changed; where the buffer ends first, they are cut off there, and so is the place.
// A `Page` keeps the buffer and the place together, and each of its methods promises the same of its text. Nothing is refused.

#![tactic(auto)]

ghost use Rattle.std.specs.Prelude.{◌≡◌, ◌≤◌, length, take};
ghost use Rattle.text.specs.Meaning.{Printed};
ghost use Rattle.text.specs.Inside.{Spelled};

mod pages;

pub use pages::Page;

pub const SPACE: u8 = 32;

pub const LINE_FEED: u8 = 10;

// Bytes, as many of them as the buffer has room for.
pub fn put_bytes(text: &mut [u8], at: usize, part: &[u8]) -> usize
    ensures { Printed text.old at part.now text.new result }
{
    let start = at.min(text.len());
    let count = part.len().min(text.len() - start);
    let end = start + count;
    text[start..end].copy_from_slice(&part[..count]);
    end
}

// The digits of a number at the end of 20 bytes, written from the last one on. Returns where the first one stands.
// By hand: `write!` promises its bytes only where no write fails, and never that none does; here they always stand there.
pub(crate) fn spell(n: usize, digits: &mut [u8; 20]) -> usize
    ensures { Spelled n digits.new result }
{
    let mut rest = n;
    for at in (0..20).rev() {
        digits[at] = b'0' + (rest % 10) as u8;
        rest /= 10;
        if rest == 0 {
            return at;
        }
    }
    0
}
