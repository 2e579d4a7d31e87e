// The answers on their way out: they are collected, and written when the buffer is full.
ghost use Rattle.std.specs.Prelude.{◌≡◌, ◌<◌, [], ◌∷◌, ◌++◌};
ghost use Rattle.arrayvec.specs.ArrayVec.{array_vec_len};

use crate::hex;
use arrayvec::ArrayVec;
use molecule::Refusal;
use std::fmt;
use std::fmt::{Display, Write};

// The answers that are still to be written.
// A struct of its own: std's BufWriter takes memory, which can fail, and this memory is fixed.
#[derive(Drop)]
pub struct Output<'a, P> {
    rt: &'a P,
    bytes: ArrayVec<u8, 4096>,
}

impl<'a, P: Print> Output<'a, P> {
    // With nothing to write.
    pub fn new(rt: &'a P) -> Output<'a, P>
        ensures { result.bytes.items ≡ [] }
    {
        Output {
            rt,
            bytes: ArrayVec::new(),
        }
    }

    // Writes what was collected. A write that fails is passed over.
    pub fn flush(&mut self)
        ensures { self.new.bytes.items ≡ [] }
    {
        let _ = self.rt.write_all(self.bytes.as_slice());
        self.bytes.clear();
    }

    // Puts a byte.
    pub fn put(&mut self, b: u8)
        ensures room { array_vec_len self.old.bytes < 4096 → self.new.bytes.items ≡ self.old.bytes.items ++ b ∷ [] }
        ensures full { array_vec_len self.old.bytes ≡ 4096 → self.new.bytes.items ≡ b ∷ [] }
    {
        if self.bytes.is_full() {
            self.flush();
        }
        self.bytes.push(b);
    }

    // Puts the text of a value. No write to an Output fails.
    pub fn print<D: Display + Drop>(&mut self, value: D) {
        let _ = self.write(value);
    }

    // Puts bytes in hexadecimal, two digits to each.
    pub fn print_hex(&mut self, bytes: &[u8]) {
        for b in bytes {
            self.put(hex::digit_of(b / 16));
            self.put(hex::digit_of(b % 16));
        }
    }

    // Puts `refused NUMBER PLACE`.
    pub fn refuse<R: Refusal>(&mut self, refusal: R) {
        let number = refusal.number();
        let place = refusal.place();
        self.print(format_args!("refused {number} {place}"));
    }
}

impl<P: Print> Write for Output<'_, P> {
    fn write_str(&mut self, s: &str) -> fmt::Result {
        for b in s.as_bytes() {
            self.put(*b);
        }
        Ok(())
    }
}
