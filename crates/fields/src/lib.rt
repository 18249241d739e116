// Fields: a one-byte tag, a two-byte length (high byte first), then the value. Tables, notices and what else is made of
// fields read them with these functions, each of which asks one thing of the bytes that a field stands at the front of.
//
// It promises of any bytes what its definitions say: a byte that is not there counts as 0.
// It refuses nothing: which test comes first, and which number a refusal then has, is the reader's to say.

#![tactic(auto)]

ghost use Rattle.std.specs.Prelude.{◌≡◌, ◌<◌, get_or};
ghost use Rattle.fields.specs.Meaning.{two, four, tag, size, short_header, short_value, above};

// A tag and a length.
pub const HEADER: usize = 3;

// Two bytes as a number, high byte first.
pub fn two(high: u8, low: u8) -> u32
    ensures { (result ≡ two high low) × (result < 65536) }
{
    u32::from(high) * 256 + u32::from(low)
}

// Four bytes as a number, high byte first.
pub fn four(a: u8, b: u8, c: u8, d: u8) -> u32
    ensures { result ≡ four a b c d }
{
    two(a, b) * 65536 + two(c, d)
}

fn byte_at(bytes: &[u8], at: usize) -> u8
    ensures { result ≡ get_or bytes.now at 0 }
{
    bytes.get(at).copied().unwrap_or(0)
}

// Are there too few bytes for a header?
pub fn short_header(bytes: &[u8]) -> bool
    ensures { result ≡ short_header bytes.now }
{
    bytes.len() < HEADER
}

pub fn tag(bytes: &[u8]) -> u8
    ensures { result ≡ tag bytes.now }
{
    byte_at(bytes, 0)
}

// How long the field says that its value is.
pub fn size(bytes: &[u8]) -> usize
    ensures { result ≡ size bytes.now }
{
    let high = byte_at(bytes, 1);
    let low = byte_at(bytes, 2);
    two(high, low) as usize
}

// Does a value of this size run past the end?
pub fn short_value(bytes: &[u8], size: usize) -> bool
    ensures { result ≡ short_value size bytes.now }
{
    if bytes.len() < HEADER {
        return true;
    }
    let behind = bytes.len() - HEADER;
    behind < size
}

// The index of the first byte above a limit, if there is one.
pub fn first_above(bytes: &[u8], limit: u8) -> Option<usize>
    ensures { result ≡ above limit bytes.now }
{
    bytes.iter().position(|&byte| limit < byte)
}
