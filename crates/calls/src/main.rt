// The board by hand: calls as lines of text, each answered with the line itself, ` = ` and the result; `?` where the line is no call. The
// original answers the same lines (tools/oracle), so the two outputs must be equal to the byte: crates/calls/stdout is the original's,
// tools/compare runs both on more. A board at 240 MHz and a port are there from the start.
//
//     new HZ                                      0 or 1: a new board
//     set cycle_ticks|skip_idle|in_isr|room_cap|exc|spi2 N
//     usb AT PERIOD, wdt AT                       0 or 4
//     push TIME ACTION, apply ACTION              0 or 5; 0 or 6
//     read A                                      the value or `none`; while idle time is skipped also clock and `skipped`
//     write A V                                   1 or 0
//     step N                                      clock, audio half or `-`, byte or `-`, USB frame, watchdog, actions applied
//     tick, nexttick, room, ms, cycles_of MS      a flag or a number
//     idle                                        clock and `skipped`
//     spi1 BYTES BAUD IRQ                         `spi1_done_at` and `spi1_wire`
//     spi2 BYTES BAUD IRQ, spi1off, srbyte B, reset
//     pending, enabled CORE N                     a flag
//     irq CORE                                    number and priority, or `none`
//     led                                         the span, then id:lit for each LED that was lit
//     state                                       clock, due, skipped, halves, queued, dropped, script, wire, done, vel
//     p33 new, p33 write A V, p33 reset CAUSE     0 (or the refusal's number)
//     p33 read A                                  the value
//     p33 keep, p33 same                          the port copied aside; whether the port is the same as the kept one
//     p33 event                                   `none`, `wdt FED` or `reset`: takes it
//     p33 reg ADDR RTC                            a register
//     p33 ms CON                                  the watchdog's milliseconds for a control byte
//     p33 snap                                    con, dat, step, cmd, addr, changed
//     p33 sum                                     FNV-1a over all registers
//     keyid HEX, encid HEX                        a name's bytes as pairs of hex digits, `-` for none: its id or `none`
//
// Actions are `key ID DOWN`, `enc ENC CLICKS`, `adc CH VALUE`, `midi B`, `vel VEL` and `pressure ID VEL`. Addresses and values are hex, other numbers
// decimal. A call that is refused answers `E` and the refusal's number, where its result is not that number itself. Empty lines and lines that
// begin with `#` answer nothing. A line of more than 4,096 bytes is answered `? = ?`.
#![tactic(auto)]

mod lines;
mod written;

use board_guard::BANK_WORDS;
use calls_board::{Memory, on_board};
use calls_port::{Ports, on_port};
use line_ask::{LINE, asked};
use lines::{BUFFER, End, Reader};
use p33::P33;
use script::{SCRIPT_LEN, SCRIPT_WORDS};
use uart::QUEUE_LEN;
use written::{flush, put_line};

const RATE: u64 = 240_000_000;

#[tactic(auto, unfolding(p33::specs::P33::new_of))]
fn main() {
    let mut input = [0u8; BUFFER];
    let mut line = [0u8; LINE];
    let mut out = [0u8; BUFFER];
    let mut regs = [0u8; 2048];
    let mut aside = [0u8; 2048];
    let mut memory = Memory {
        queue: [0; QUEUE_LEN],
        script: [0; SCRIPT_WORDS],
        icfg: [0; BANK_WORDS],
        icfg1: [0; BANK_WORDS],
        lights: [0; 41],
    };
    let made = board::made(
        RATE,
        QUEUE_LEN,
        SCRIPT_LEN,
        &mut memory.icfg,
        &mut memory.icfg1,
    );
    let mut b = made.board;
    let port = P33::new(&mut regs).unwrap();
    let mut ports = Ports { port, kept: port };
    let mut reader = Reader::new();
    let mut to = 0;
    for _ in 0..u64::MAX {
        reader = reader.filled(&mut input).taken(&input, &mut line);
        if reader.end == End::Open {
            continue;
        }
        let ask = asked(&line, reader.len);
        let c = on_board(b, ask, &mut memory);
        b = c.board;
        let answer = c.answer;
        let p = on_port(ports, ask, answer, &mut regs, &mut aside);
        ports = p.ports;
        let said = p.answer;
        to = put_line(&mut out, to, &line, reader.len, said, &memory.lights);
        if reader.end == End::Input {
            break;
        }
        reader = reader.begun();
    }
    flush(&out, to);
}
