// The driver's lines, one an answer, put behind the bytes that wait in a buffer. A byte for which there is no room is left out, as everywhere in `text`; no line is longer than 116 bytes (`line-short` in proofs/Short.antt).
#![tactic(auto)]

ghost use Rattle.std.specs.Prelude.{◌≡◌, length};
ghost use Rattle.text.specs.Putting.{place_after_all, put_all};
ghost use Rattle.driver_lines.specs.Lines.{value_text, half_text, byte_text, flag_text, number_line, read_line, write_line, step_line, line_of};

use audio::Half;
use driver_carry::Answer;
use text::{put, put_decimal, put_hex, put_text};
use uart::Byte;

fn put_value(out: &mut [u8], at: usize, v: Option<u32>) -> usize
    ensures place { result ≡ place_after_all (length out.old) at (value_text v) }
    ensures bytes { out.new ≡ put_all out.old at (value_text v) }
{
    match v {
        Some(n) => put_hex(out, at, n as u64, 8),
        None => put_text(out, at, b"none"),
    }
}

fn put_half(out: &mut [u8], at: usize, half: Option<Half>) -> usize
    ensures place { result ≡ place_after_all (length out.old) at (half_text half) }
    ensures bytes { out.new ≡ put_all out.old at (half_text half) }
{
    match half {
        Some(Half { addr, words }) => {
            let address = put_hex(out, at, addr as u64, 8);
            let slash = put_text(out, address, b"/");
            put_decimal(out, slash, words as u64)
        }
        None => put_text(out, at, b"-"),
    }
}

fn put_byte(out: &mut [u8], at: usize, byte: Option<Byte>) -> usize
    ensures place { result ≡ place_after_all (length out.old) at (byte_text byte) }
    ensures bytes { out.new ≡ put_all out.old at (byte_text byte) }
{
    match byte {
        Some(Byte { addr, b }) => {
            let address = put_hex(out, at, addr as u64, 8);
            let slash = put_text(out, address, b"/");
            put_hex(out, slash, b as u64, 2)
        }
        None => put_text(out, at, b"-"),
    }
}

fn put_flag(out: &mut [u8], at: usize, flag: bool) -> usize
    ensures place { result ≡ place_after_all (length out.old) at (flag_text flag) }
    ensures bytes { out.new ≡ put_all out.old at (flag_text flag) }
{
    if flag {
        return put_text(out, at, b"1");
    }
    put_text(out, at, b"0")
}

// A letter and a number.
fn put_number(out: &mut [u8], at: usize, letter: &[u8], n: u64) -> usize
    ensures place { result ≡ place_after_all (length out.old) at (number_line letter.now n) }
    ensures bytes { out.new ≡ put_all out.old at (number_line letter.now n) }
{
    let lettered = put_text(out, at, letter);
    let numbered = put_decimal(out, lettered, n);
    put_text(out, numbered, b"\n")
}

fn put_read(out: &mut [u8], at: usize, addr: u32, v: Option<u32>) -> usize
    ensures place { result ≡ place_after_all (length out.old) at (read_line addr v) }
    ensures bytes { out.new ≡ put_all out.old at (read_line addr v) }
{
    let letter = put_text(out, at, b"R ");
    let address = put_hex(out, letter, addr as u64, 8);
    let space = put_text(out, address, b" ");
    let value = put_value(out, space, v);
    put_text(out, value, b"\n")
}

fn put_write(out: &mut [u8], at: usize, addr: u32, v: u32, handled: bool) -> usize
    ensures place { result ≡ place_after_all (length out.old) at (write_line addr v handled) }
    ensures bytes { out.new ≡ put_all out.old at (write_line addr v handled) }
{
    let letter = put_text(out, at, b"W ");
    let address = put_hex(out, letter, addr as u64, 8);
    let space = put_text(out, address, b" ");
    let value = put_hex(out, space, v as u64, 8);
    let next = put_text(out, value, b" ");
    let flag = put_flag(out, next, handled);
    put_text(out, flag, b"\n")
}

fn put_step(
    out: &mut [u8],
    at: usize,
    clock: u64,
    half: Option<Half>,
    byte: Option<Byte>,
    applied: u32,
) -> usize
    ensures place { result ≡ place_after_all (length out.old) at (step_line clock half byte applied) }
    ensures bytes { out.new ≡ put_all out.old at (step_line clock half byte applied) }
{
    let letter = put_text(out, at, b"A ");
    let time = put_decimal(out, letter, clock);
    let space = put_text(out, time, b" ");
    let audio = put_half(out, space, half);
    let next = put_text(out, audio, b" ");
    let got = put_byte(out, next, byte);
    let last = put_text(out, got, b" ");
    let acts = put_decimal(out, last, applied as u64);
    put_text(out, acts, b"\n")
}

// The line of an answer: none where there is nothing.
pub fn put_line(out: &mut [u8], at: usize, a: Answer) -> usize
    ensures place { result ≡ place_after_all (length out.old) at (line_of a) }
    ensures bytes { out.new ≡ put_all out.old at (line_of a) }
{
    match a {
        Answer::Pushed { number } => put_number(out, at, b"S ", number as u64),
        Answer::Read { addr, value } => put_read(out, at, addr, value),
        Answer::Wrote {
            addr,
            value,
            handled,
        } => put_write(out, at, addr, value, handled),
        Answer::Stepped {
            clock,
            audio,
            byte,
            applied,
        } => put_step(out, at, clock, audio, byte, applied),
        Answer::Refused { number } => put_number(out, at, b"E ", number as u64),
        Answer::Broken { at: offset } => put_number(out, at, b"X ", offset as u64),
        Answer::Nothing => at,
    }
}
