// The limits of the calls, tried on a new board: each lent length, each parameter and a new board's rate, and every call on a board of the rate 0, which is not whole. It reads lines from standard input, at most 64 KB of
// them, and writes each again; one that tries something with ` = ` and the number that comes back, 0 for done. tools/broken writes both sides from document 01.
//
//     let hz V                                 the boards have that rate from here on
//     CALL A FIRST SECOND = N                  `read`, `write` (of address A), `irq_enabled`, `pending_irq_for` (of core A), `pending_irq`, `chip_reset`, lent banks of so many words
//     made HZ QUEUE ENTRIES FIRST SECOND = N   a new board: its rate, its queue, script and banks
//     CALL A B = N                             any other call, with its numbers
//
// The step, the push and `apply` are tried by crates/refusals_whole. Numbers are decimal, and one that is not there is 0. Other lines (remarks, empty ones) are only written.
#![tactic(auto)]

mod asks;
mod banks;

use asks::{asked, call_of};
use refusals_lines::{Answer, numbers_of, put_line};
use text::{STDIN, STDOUT, bytes_of, first, is, word};

fn main() {
    let mut input = [0u8; 65536];
    let got = io::read_full(STDIN, &mut input);
    let mut hz = 0;
    // The same three lines stand in `refusals_whole`: of a shared function that takes a closure no clause was proved that says which lines it was called with, and a public function has one.
    for part in first(&input, got).split_inclusive(|b| *b == b'\n') {
        if let Some(line) = part.strip_suffix(b"\n") {
            hz = answered(line, hz);
        }
    }
}

// The rate after the line.
fn answered(line: &[u8], hz: u64) -> u64 {
    let verb = word(line, 0);
    let n = numbers_of(line, verb.to);
    if let Some(call) = call_of(bytes_of(line, verb)) {
        told(line, Answer::One(asked(hz, call, n)));
        return hz;
    }
    told(line, Answer::Nothing);
    if is(line, verb, b"let") { n[1] } else { hz }
}

fn told(line: &[u8], a: Answer) {
    let mut out = [0u8; 256];
    let to = put_line(&mut out, line, a);
    io::write_all(STDOUT, first(&out, to));
}
