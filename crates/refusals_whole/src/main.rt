// The whole record and what depends on it, tried: each condition of a whole record broken in turn, asked of `ms`, the step and the push; the lengths that a step, a push and an action are lent, the lent script's front, the
// counts, the clock's end. It reads lines from standard input, at most 64 KB of them, and writes each again; one that tries something with ` = ` and the numbers that come back, 0 for done. tools/broken writes both sides
// from document 01.
//
//     let NAME V                              the record has V in that field, in all places of a row, from here on
//     NAME I V = MS STEP PUSH                 the record with V at place I of that field (0 where it is no row): `ms`, a step of no cycles, a push
//     step CYCLES QUEUE WORDS OUT FRONT = N   lent a queue of so many bytes, a script of so many words and output of so many bytes; FRONT is the lent front's time
//     push WORDS FRONT = N                    lent a script of so many words
//     apply KIND QUEUE = N                    a MIDI byte (0) or a velocity (1), lent a queue of so many bytes
//     tick = N, idle = N, read ADDRESS = N    on the record as it is
//     spi1_start BYTES BAUD = N, spi2_start BYTES BAUD = N
//
// Numbers are decimal, a force is given by its bits, and a number that is not there is 0. Other lines (remarks, empty ones) are only written.
#![tactic(auto)]

mod asks;
mod lent;

use asks::{asked, call_of, three};
use refusals_lines::{Answer, numbers_of, put_line};
use refusals_rows::{PLACES, ROWS, fill, row_of};
use text::{STDIN, STDOUT, bytes_of, first, is, word};

fn main() {
    let mut input = [0u8; 65536];
    let got = io::read_full(STDIN, &mut input);
    let mut rows = [[0u64; PLACES]; ROWS];
    // as in `refusals_limits`, which says why
    for part in first(&input, got).split_inclusive(|b| *b == b'\n') {
        if let Some(line) = part.strip_suffix(b"\n") {
            answered(line, &mut rows);
        }
    }
}

fn answered(line: &[u8], rows: &mut [[u64; PLACES]; ROWS]) {
    let verb = word(line, 0);
    let name = word(line, verb.to);
    let n = numbers_of(line, verb.to);
    if is(line, verb, b"let") {
        if let Some(row) = row_of(bytes_of(line, name)) {
            fill(rows, row, n[1]);
        }
        told(line, Answer::Nothing);
    } else {
        told(line, tried(rows, bytes_of(line, verb), n));
    }
}

fn tried(rows: &[[u64; PLACES]; ROWS], name: &[u8], n: [u64; 5]) -> Answer {
    if let Some(row) = row_of(name) {
        return three(rows, row, n[0], n[1]);
    }
    match call_of(name) {
        Some(call) => Answer::One(asked(rows, call, n)),
        None => Answer::Nothing,
    }
}

fn told(line: &[u8], a: Answer) {
    let mut out = [0u8; 256];
    let to = put_line(&mut out, line, a);
    io::write_all(STDOUT, first(&out, to));
}
