#![tactic(auto)]
// Lent words and numbers left with zeros.
ghost use Rattle.std.specs.Prelude.{◌≡◌, ◌≤◌, length, replicate};
ghost use Rattle.clear.specs.Inner.Part.{zero_part};

// Every word becomes 0. One call of the library, by a name: that lent words end with zeros is said once.
pub fn zero(words: &mut [u64])
    ensures { words.new ≡ replicate (length words.old) 0 }
{
    words.fill(0);
}

// Every number becomes 0. The same of numbers of 32 bits.
pub fn zero_numbers(numbers: &mut [u32])
    ensures { numbers.new ≡ replicate (length numbers.old) 0 }
{
    numbers.fill(0);
}

// The words from .. to become 0.
pub fn zero_part(words: &mut [u64], from: usize, to: usize)
    requires { (from ≤ to) × (to ≤ length words.old) }
    ensures { words.new ≡ zero_part words.old from to }
{
    zero(&mut words[from..to]);
}
