// Words of a line: what stands between single spaces.
ghost use Rattle.std.specs.Prelude.{◌≡◌, ◌≤◌, ◌↔◌, None, Some, IsTrue, IfSome};
ghost use Rattle.std.specs.Option.{option_copied};
ghost use Rattle.lines.specs.Words.{TakesWord, TakesNumber};

use crate::numbers;

// The words of a line that are still to be read.
#[derive(Drop)]
pub struct Words<'a> {
    // What is left of the line: none after its last word.
    left: Option<&'a [u8]>,
}

impl<'a> Words<'a> {
    // All words of a line.
    pub fn new(line: &'a [u8]) -> Words<'a>
        ensures { option_copied result.left ≡ Some line.now }
    {
        Words { left: Some(line) }
    }

    // Whether all words were read.
    pub fn is_done(&self) -> bool
        ensures { IsTrue result ↔ (option_copied self.now.left ≡ None) }
    {
        self.left.is_none()
    }

    // The next word, as a number in decimal of at most most.
    pub fn next_number(&mut self, most: usize) -> Option<usize>
        ensures read { TakesNumber most (option_copied self.old.left) result (option_copied self.new.left) }
        ensures within { IfSome result (λ n. n ≤ most) }
    {
        numbers::number_to(self.next()?, most)
    }

    // The next word, as a number in decimal below 2 to the power 32.
    pub fn next_u32(&mut self) -> Option<u32>
        ensures { TakesNumber 4294967295 (option_copied self.old.left) result (option_copied self.new.left) }
    {
        u32::try_from(numbers::decimal_number(self.next()?)?).ok()
    }
}

impl<'a> Iterator for Words<'a> {
    type Item = &'a [u8];

    ghost next_gives = { λ s r t. TakesWord (option_copied s.left) (option_copied r) (option_copied t.left) };

    fn next(&mut self) -> Option<&'a [u8]> {
        let left = self.left?;
        match left.iter().position(|b| *b == b' ') {
            Some(i) => {
                self.left = Some(&left[i + 1..]);
                Some(&left[..i])
            }
            None => {
                self.left = None;
                Some(left)
            }
        }
    }
}
