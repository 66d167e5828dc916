// Document 01's driver over a script of entries: records from standard input, carried out on a new 240 MHz board, a line each on standard output. The board is made, stepped and pushed onto by the
// calls over lent entries (crate `board_entries`, through `board_entries_by_value`); reads and writes go by `driver_carry`, which lends no script to them. Every call is a public one, with all its tests. It is there to be held
// against the original and takes 256 KB of input; crate `driver` is the one that streams and is quick.
#![tactic(auto)]

use board_entries_by_value::{advance_in, new_in, push_in};
use board_guard::BANK_WORDS;
use driver_carry::{Answer, carry as carry_out, told};
use driver_lines::put_line;
use records::{Action, Body, Broken, Order, Record, decode};
use script::{Entry, SCRIPT_LEN};
use state::Board;
use step::OUT_BYTES;
use text::{STDIN, STDOUT, first};
use uart::QUEUE_LEN;

const RATE: u64 = 240_000_000;

#[derive(Clone, Copy)]
struct Outcome {
    board: Board,
    script: [Entry; SCRIPT_LEN],
    answer: Answer,
}

fn main() {
    let mut input = [0u8; 262144];
    let mut line = [0u8; 128];
    let mut queue = [0u8; QUEUE_LEN];
    let mut icfg = [0u32; BANK_WORDS];
    let mut icfg1 = [0u32; BANK_WORDS];
    let mut acts = [0u8; OUT_BYTES];
    let len = io::read_full(STDIN, &mut input);
    run(
        first(&input, len),
        &mut line,
        &mut queue,
        &mut icfg,
        &mut icfg1,
        &mut acts,
    );
}

// Every record of the input.
fn run(
    input: &[u8],
    line: &mut [u8; 128],
    queue: &mut [u8; QUEUE_LEN],
    icfg: &mut [u32; BANK_WORDS],
    icfg1: &mut [u32; BANK_WORDS],
    acts: &mut [u8; OUT_BYTES],
) {
    let action = Action::Midi { b: 0 };
    let entry = Entry { at: 0, action };
    let mut script = [entry; SCRIPT_LEN];
    let made = new_in(RATE, queue, script, icfg, icfg1);
    let mut b = made.board;
    let mut at: usize = 0;
    for _ in 0..u64::MAX {
        let found = decode(input, at);
        let c = carried_out(b, script, found, queue, icfg, icfg1, acts);
        let answer = c.answer;
        b = c.board;
        script = c.script;
        let len = put_line(line, 0, answer);
        io::write_all(STDOUT, first(line, len));
        // nothing comes after the last record, or after one that is broken
        let Ok(Some(record)) = found else {
            break;
        };
        at = record.next;
    }
}

fn carried_out(
    b: Board,
    script: [Entry; SCRIPT_LEN],
    found: Result<Option<Record>, Broken>,
    queue: &mut [u8; QUEUE_LEN],
    icfg: &mut [u32; BANK_WORDS],
    icfg1: &mut [u32; BANK_WORDS],
    acts: &mut [u8; OUT_BYTES],
) -> Outcome {
    let Ok(Some(record)) = found else {
        return other(b, script, found, queue, icfg, icfg1, acts);
    };
    match record.body {
        Body::Timed { time, action } => pushed(b, script, time, action),
        Body::Order(Order::Step { cycles }) => stepped(b, script, cycles, queue, acts),
        _ => other(b, script, found, queue, icfg, icfg1, acts),
    }
}

fn pushed(mut b: Board, mut script: [Entry; SCRIPT_LEN], time: u64, action: Action) -> Outcome {
    let h = push_in(b, script, time, action);
    let p = h.pushing;
    b = p.board;
    script = h.script;
    Outcome {
        board: b,
        script,
        answer: Answer::Pushed { number: p.refused },
    }
}

fn stepped(
    mut b: Board,
    script: [Entry; SCRIPT_LEN],
    cycles: u64,
    queue: &mut [u8; QUEUE_LEN],
    acts: &mut [u8; OUT_BYTES],
) -> Outcome {
    let t = told(advance_in(b, cycles, queue, script, acts));
    b = t.board;
    let answer = t.answer;
    Outcome {
        board: b,
        script,
        answer,
    }
}

// A read, a write, a broken record, or the end: none uses the script.
fn other(
    mut b: Board,
    script: [Entry; SCRIPT_LEN],
    found: Result<Option<Record>, Broken>,
    queue: &mut [u8; QUEUE_LEN],
    icfg: &mut [u32; BANK_WORDS],
    icfg1: &mut [u32; BANK_WORDS],
    acts: &mut [u8; OUT_BYTES],
) -> Outcome {
    let mut none = [0u64; 2];
    let c = carry_out(b, found, queue, &mut none, icfg, icfg1, acts);
    b = c.board;
    let answer = c.answer;
    Outcome {
        board: b,
        script,
        answer,
    }
}
