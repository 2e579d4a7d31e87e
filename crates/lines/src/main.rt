#![tactic(auto)]
// Reads a question a line, and answers each on a line.
// Numbers turn by `as`, shown to lose nothing: usize has no From, and a TryFrom would answer an error that never is.
use arrayvec::ArrayVec;
use output::Output;
use std::io::Read;
use words::Words;

mod check_line;
mod hex;
mod label_line;
mod matches_line;
mod noise;
mod numbers;
mod output;
mod score_line;
mod words;

// Where the program stands: the number of the line that is coming, its bytes so far, and the answers on their way out.
#[derive(Drop)]
struct State<'a, P> {
    number: u64,
    // A line has at most 4096 bytes: where the list is full, it is too long.
    line: ArrayVec<u8, 4097>,
    out: Output<'a, P>,
}

impl<'a, P: Print> State<'a, P> {
    // Before the first line.
    fn new(rt: &'a P) -> State<'a, P> {
        State {
            number: 1,
            line: ArrayVec::new(),
            out: Output::new(rt),
        }
    }

    // Puts the answer of the line that has ended, with its newline.
    fn answer(&mut self) {
        if answer_line(&self.line, &mut self.out).is_none() {
            let number = self.number;
            self.out.print(format_args!("unreadable {number}"));
        }
        self.out.put(b'\n');
    }

    // Takes one byte in: a newline ends the line. A byte that does not fit is dropped.
    fn take(&mut self, b: u8) {
        if b == b'\n' {
            self.answer();
            self.number = self.number.wrapping_add(1);
            self.line.clear();
        } else {
            let _ = self.line.try_push(b);
        }
    }

    // Takes a chunk in, and writes the answers.
    fn take_all(&mut self, chunk: &[u8]) {
        for b in chunk {
            self.take(*b);
        }
        self.out.flush();
    }

    // Answers a last line with no newline.
    fn finish(&mut self) {
        if !self.line.is_empty() {
            self.answer();
            self.out.flush();
        }
    }
}

// Answers a line. None: it is unreadable, and nothing was put.
fn answer_line<P: Print>(line: &ArrayVec<u8, 4097>, out: &mut Output<P>) -> Option<()> {
    if line.is_full() {
        return None;
    }
    let mut words = Words::new(line.as_slice());
    match words.next()? {
        b"check" => check_line::answer(words, out),
        b"label" => label_line::answer(words, out),
        b"matches" => matches_line::answer(words, out),
        b"score" => score_line::answer(words, out),
        _ => None,
    }
}

// Reads chunk by chunk to the end of the input, or to a read that fails.
// A count that no input reaches, and no `loop`: every loop is shown to end.
fn answer_all<P: Print + Input>(rt: &P, state: &mut State<P>) {
    let mut chunk = [0u8; 65536];
    let mut reader = rt.reader();
    for _ in 0..u64::MAX {
        match reader.read(&mut chunk) {
            Ok(n) if 0 < n => state.take_all(&chunk[..n]),
            _ => return,
        }
    }
}

fn main(rt: HostRuntime) {
    let mut state = State::new(&rt);
    answer_all(&rt, &mut state);
    state.finish();
}
