// The command `check HEX`: accepted, or refused with a number and a place.
use crate::hex;
use crate::output::Output;
use crate::words::Words;

// Answers the line with these words behind the command.
pub fn answer<P: Print>(mut words: Words, out: &mut Output<P>) -> Option<()> {
    let record = hex::record(words.next()?)?;
    if !words.is_done() {
        return None;
    }
    match molecule::check(&record) {
        Ok(()) => out.print("accepted"),
        Err(fault) => out.refuse(fault),
    }
    Some(())
}
