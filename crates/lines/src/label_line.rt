// The command `label HEX SETHEX BUFLEN`: the label of a set of bonds, asked with a buffer of so many bytes.
use crate::output::Output;
use crate::words::Words;
use crate::{hex, numbers};

// Answers the line with these words behind the command.
pub fn answer<P: Print>(mut words: Words, out: &mut Output<P>) -> Option<()> {
    let record = hex::record(words.next()?)?;
    let set = numbers::hex_number(words.next()?)?;
    let length = words.next_number(1024)?;
    if !words.is_done() {
        return None;
    }
    // An array of the most that may be lent: the memory is fixed, and that of a Vec can fail.
    let mut room = [0u8; 1024];
    put_label(&record, set, &mut room[..length], out);
    Some(())
}

// Puts `label HEX` or `refused NUMBER PLACE`.
fn put_label<P: Print>(record: &[u8], set: u64, buffer: &mut [u8], out: &mut Output<P>) {
    match canonize::label(record, set, buffer) {
        Ok(n) => {
            out.print("label ");
            out.print_hex(&buffer[..n]);
        }
        Err(refusal) => out.refuse(refusal),
    }
}
