// Numbers as a line has them.
ghost use Rattle.std.specs.Prelude.{◌^◌, ◌≤◌};
ghost use Rattle.lines.specs.Numbers.{ReadAs, ReadTo};

// A number of 1 to most digits to a base.
fn read(word: &[u8], base: u32, most: usize) -> Option<u64>
    requires low { 2 ≤ base }
    requires high { base ≤ 16 }
    requires fits { base ^ most ≤ 2 ^ 64 }
    ensures { ReadAs base most word.now result }
{
    if word.is_empty() || most < word.len() {
        return None;
    }
    let mut value = 0;
    for b in word {
        let digit = char::from(*b).to_digit(base)?;
        value = value * u64::from(base) + u64::from(digit);
    }
    Some(value)
}

// A number in hexadecimal, of 1 to 16 digits.
pub fn hex_number(word: &[u8]) -> Option<u64>
    ensures { ReadAs 16 16 word.now result }
{
    read(word, 16, 16)
}

// A number in decimal, of 1 to 19 digits.
pub fn decimal_number(word: &[u8]) -> Option<u64>
    ensures { ReadAs 10 19 word.now result }
{
    read(word, 10, 19)
}

// A number in decimal of at most most.
pub fn number_to(word: &[u8], most: usize) -> Option<usize>
    ensures { ReadTo most word.now result }
{
    let n = usize::try_from(decimal_number(word)?).ok()?;
    if most < n {
        return None;
    }
    Some(n)
}
