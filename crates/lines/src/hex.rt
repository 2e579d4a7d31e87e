// Hexadecimal digits, two to a byte.
ghost use Rattle.std.specs.Prelude.{◌≡◌, ◌+◌, ◌*◌, ◌<◌};
ghost use Rattle.std.specs.Char.{digit_value};
ghost use Rattle.std.specs.Option.{SomeIff, option_map};
ghost use Rattle.lines.specs.Hex.{Decoded, DecodedRecord};

use arrayvec::ArrayVec;

// The digit, in lower case, of a number below 16.
pub fn digit_of(x: u8) -> u8
    requires { x < 16 }
    ensures { digit_value result ≡ x }
{
    if x < 10 { b'0' + x } else { b'a' + (x - 10) }
}

// The byte that two digits spell, of either case.
fn byte(high: u8, low: u8) -> Option<u8>
    ensures { SomeIff result ((digit_value high < 16) × (digit_value low < 16)) (16 * digit_value high + digit_value low) }
{
    let high = char::from(high).to_digit(16)?;
    let low = char::from(low).to_digit(16)?;
    Some((16 * high + low) as u8)
}

// The bytes that a word's digits spell, at most 2048.
fn bytes(word: &[u8]) -> Option<ArrayVec<u8, 2048>>
    ensures { Decoded word.now 2048 (option_map (λ v. v.items) result) }
{
    let n = word.len() / 2;
    if word.len() != 2 * n || 2048 < n {
        return None;
    }
    let mut bytes = ArrayVec::new();
    for i in 0..n {
        bytes.push(byte(word[2 * i], word[2 * i + 1])?);
    }
    Some(bytes)
}

// The bytes of a record as a line has it, at most 2048: digits, or - for an empty record.
// By value, so that no caller lends a list; a `check` line takes 1.1 of the time for it.
pub fn record(word: &[u8]) -> Option<ArrayVec<u8, 2048>>
    ensures { DecodedRecord word.now 2048 (option_map (λ v. v.items) result) }
{
    match word {
        [] => None,
        b"-" => Some(ArrayVec::new()),
        _ => bytes(word),
    }
}
