// Names, times, forces and records as lines of text: each line is answered with itself, ` = ` and the result, `?` where it asks nothing that
// is known here or lies outside 01's domain. The original answers the same lines (tools/oracle), so the two outputs must be
// equal to the byte: crates/asks/stdout is the original's, tools/compare runs both on more.
//
//     keyid HEX, encid HEX            a name's bytes as pairs of hex digits, `-` for the empty name: its id or `none`
//     muldiv A B C                    the low 32 bits of a * b / c
//     t4 CYCLES HZ                    TIMER4's count that long after its base
//     t5count CYCLES HZ               TIMER5's count that far into its longest period
//     t5 PRD HZ                       TIMER5's period in cycles
//     count CODE HZ                   cycles per count of a timer with that divider code
//     half LEN HZ                     cycles of an audio half of LEN words
//     timeout OTCNT HZ                cycles from a byte to the timeout
//     byte HZ                         cycles of a MIDI byte
//     ms CYCLES HZ, cycles MS HZ      milliseconds, both ways
//     press HZ, release HZ, pressure HZ   the lengths of a key's ramps
//     spi1of BYTES BAUD HZ, spi2of BYTES BAUD HZ   cycles of a transfer
//     wdt CON                         the watchdog's milliseconds for a control byte
//     velocity VEL                    the force that a key lands at, as the f32's bits
//     force FROM TO T0 DUR NOW        the force of a ramp at a moment; forces by their bits
//     record HEX AT                   the record at that offset of some bytes: time, action and where the next begins
//
// Words are separated by spaces, other numbers are decimal. Empty lines and lines that begin with `#` answer nothing. A line of more
// than 4,096 bytes is answered `? = ?`.
#![tactic(auto)]

mod answers;

use answers::answer;
use line_answer::{Answer, put_line};
use line_ask::LINE;
use text::{STDIN, STDOUT, first, put_text};

// No answer here shows lights. A constant, since an array of the function's own would be cleared for each line.
const NO_LIGHTS: [u64; 41] = [0; 41];

// The bytes of the line so far, and of the answers that wait.
#[derive(Clone, Copy)]
struct Went {
    line: usize,
    out: usize,
}

fn main() {
    let mut input = [0u8; 65536];
    let mut line = [0u8; LINE];
    let mut out = [0u8; 65536];
    let mut went = Went { line: 0, out: 0 };
    for _ in 0..u64::MAX {
        let got = io::read_full(STDIN, &mut input);
        if got == 0 {
            break;
        }
        went = chunk(first(&input, got), &mut line, &mut out, went);
    }
    let last = ended(first(&line, went.line), &mut out, went.out);
    flush(first(&out, last));
}

// The bytes of one read, line by line: what stands before a line's end joins the line, and the end answers it. A full line is too long, and stays so.
fn chunk(input: &[u8], line: &mut [u8], out: &mut [u8], mut went: Went) -> Went {
    for part in input.split_inclusive(|b| *b == b'\n') {
        if let [end @ .., b'\n'] = part {
            let n = put_text(line, went.line, end);
            went = Went {
                line: 0,
                out: ended(first(line, n), out, went.out),
            };
        } else {
            went.line = put_text(line, went.line, part);
        }
    }
    went
}

// The line is answered; what waits is written out before there could be no room for the next answer.
fn ended(line: &[u8], out: &mut [u8], waits: usize) -> usize {
    let to = flushed(out, waits);
    put_line(out, to, line, answered(line), &NO_LIGHTS)
}

fn answered(line: &[u8]) -> Answer {
    if line.len() < LINE {
        return answer(line);
    }
    Answer::LongLine
}

fn flushed(out: &[u8], to: usize) -> usize {
    if 57344 < to {
        flush(first(out, to));
        return 0;
    }
    to
}

fn flush(waits: &[u8]) {
    io::write_all(STDOUT, waits);
}
