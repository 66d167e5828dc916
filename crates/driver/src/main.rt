// Document 01's driver: records from standard input, carried out on a new 240 MHz board, a line each on standard output. It ends with its input, or with `X` at a record that is broken or cut
// off. Input streams through one buffer, so that its length does not matter, and lines wait in another. What is printed for the bytes that were read is `driver_records` (`driver_lines` for all of
// them); here they are read and the lines written. The loop knows its board whole (`BenchOk`), so that records are carried out and nothing tested. The chip is a variable and the panel another,
// lent, so that no record copies the board.
#![tactic(auto)]

mod stream;

ghost use Rattle.std.specs.Prelude.{◌≡◌, length};
ghost use Rattle.uart.specs.Uart.{queue_bytes};

use board_guard::BANK_WORDS;
use driver_records::put_lines;
use script::{SCRIPT_LEN, SCRIPT_WORDS};
use step::OUT_BYTES;
use stream::Stream;
use text::{STDOUT, first};
use uart::QUEUE_LEN;

const RATE: u64 = 240_000_000;

// Turns, of which each passes at most a buffer: 2^63 bytes of input are more than can be read.
const TURNS: usize = 0x8000_0000_0000;

fn main() {
    let mut input = [0u8; 65536];
    let mut out = [0u8; 65536];
    let mut queue = [0u8; QUEUE_LEN];
    let mut script = [0u64; SCRIPT_WORDS];
    let mut icfg = [0u32; BANK_WORDS];
    let mut icfg1 = [0u32; BANK_WORDS];
    let mut acts = [0u8; OUT_BYTES];
    run(
        &mut input,
        &mut out,
        &mut queue,
        &mut script,
        &mut icfg,
        &mut icfg1,
        &mut acts,
    );
}

// Reads, has the lines put, writes them, until they end.
fn run(
    input: &mut [u8],
    out: &mut [u8],
    queue: &mut [u8],
    script: &mut [u64],
    icfg: &mut [u32],
    icfg1: &mut [u32],
    acts: &mut [u8],
)
    requires { (length input.old ≡ 65536) × (length out.old ≡ 65536) × (length queue.old ≡ queue_bytes) × (length script.old ≡ 512) × (length icfg.old ≡ 32) × (length icfg1.old ≡ 32) × (length acts.old ≡ 4352) }
{
    let b = board::made(RATE, QUEUE_LEN, SCRIPT_LEN, icfg, icfg1).board;
    let mut c = b.chip;
    let mut panel = b.panel;
    let mut s = Stream::start();
    for _turn in 0..TURNS {
        s = s.fed(input);
        let w = put_lines(
            s.unread(input),
            s.base,
            s.last,
            out,
            c,
            &mut panel,
            queue,
            script,
            icfg,
            icfg1,
            acts,
        );
        let d = w.chip;
        c = d;
        flush(out, w.put);
        s = s.passed(w.passed);
        if w.ended {
            break;
        }
    }
}

fn flush(out: &[u8], n: usize) {
    io::write_all(STDOUT, first(out, n));
}
