// Numbers in decimal, as they are given in a program's arguments.
//
// `number_in` reads any bytes. It promises to give a number exactly where there is at least one byte, all are digits, and the number
// that they are fits in 64 bits; that number is then given. Zeros in front are taken. It refuses nothing: of other bytes it says
// that they give no number.

#![tactic(auto)]

ghost use Rattle.std.specs.Prelude.{◌≡◌};
ghost use Rattle.decimals.specs.Meaning.{number_in};

pub fn number_in(bytes: &[u8]) -> Option<usize>
    ensures { result ≡ number_in bytes.now }
{
    // `parse` takes a plus in front of the digits.
    if bytes.starts_with(b"+") {
        return None;
    }
    str::from_utf8(bytes).ok()?.parse().ok()
}
