// The record from rows of numbers, one for each field that a whole record limits and for those that decide what the calls here do. A field with one place has it at the row's front; all other fields are a new board's.
#![tactic(auto)]

ghost use Rattle.std.specs.Prelude.{◌≡◌, ◌<◌, Some, map};
ghost use Rattle.refusals_rows.specs.Rows.{
  row_of,
  filled,
  placed,
  low as low_of,
  tmr_made,
  enc_made,
  clock_from,
  t4_from,
  tmrs_from,
  audio_from,
  spi_from,
  uart_from,
  host_from,
  script_from,
  pins_from,
  encs_from,
  chip_from,
  force_from,
  panel_from,
  board_from,
};

use audio::Audio;
use panel::{Enc, Pins, Ramps};
use script::Script;
use spi::Spi;
use state::{Board, Chip, Clock, Host, Panel};
use text::find;
use timers::{T4, Tmr};
use uart::Uart;

pub const ROWS: usize = 48;

pub const PLACES: usize = 41;

// The fields, each with the number of its row.
const FIELDS: [(&[u8], usize); ROWS] = [
    (b"hz", 0),
    (b"cycles", 1),
    (b"next_due", 2),
    (b"skipped", 3),
    (b"skip_idle", 4),
    (b"in_isr", 5),
    (b"t4.con", 6),
    (b"t4.base", 7),
    (b"t4.last_cnt_read", 8),
    (b"t4.cnt_streak", 9),
    (b"t5.next", 10),
    (b"tmr.start", 11),
    (b"tmr.next", 12),
    (b"tick.start", 13),
    (b"tick.next", 14),
    (b"audio.next", 15),
    (b"audio.half", 16),
    (b"audio.len", 17),
    (b"spi1_done_at", 18),
    (b"spi1_irq_at", 19),
    (b"spi1_wire", 20),
    (b"spi2_next", 21),
    (b"uart.next", 22),
    (b"uart.ot_next", 23),
    (b"uart.dropped", 24),
    (b"uart.wr", 25),
    (b"uart.rxcnt", 26),
    (b"uart.place", 27),
    (b"uart.count", 28),
    (b"usb_next", 29),
    (b"usb_period", 30),
    (b"wdt_at", 31),
    (b"script.at", 32),
    (b"script.place", 33),
    (b"script.count", 34),
    (b"led_last", 35),
    (b"led_since", 36),
    (b"led_pend", 37),
    (b"enc.next", 38),
    (b"enc.pending", 39),
    (b"enc.state", 40),
    (b"keys.vel", 41),
    (b"exc_pending", 42),
    (b"ramps.t0", 43),
    (b"ramps.dur", 44),
    (b"ramps.from", 45),
    (b"ramps.to", 46),
    (b"acc", 47),
];

// The number of a field's row.
pub fn row_of(name: &[u8]) -> Option<usize>
    ensures value { result ≡ row_of name.now }
    ensures bounded { (k : _) → result ≡ Some k → k < 48 }
{
    find(&FIELDS, name)
}

// One number in all of a row's places.
pub fn fill(rows: &mut [[u64; PLACES]; ROWS], k: usize, v: u64)
    ensures { rows.new ≡ filled rows.old k v }
{
    if k < ROWS {
        rows[k] = [v; PLACES];
    }
}

// At one of them.
pub fn put_at(rows: &mut [[u64; PLACES]; ROWS], k: usize, i: u64, v: u64)
    ensures { rows.new ≡ placed rows.old k i v }
{
    if k < ROWS {
        if i < 41 {
            let mut row = rows[k];
            row[i as usize] = v;
            rows[k] = row;
        }
    }
}

// ---- the record

fn low(v: u64) -> u32
    ensures { result ≡ low_of v }
{
    (v % 0x1_0000_0000) as u32
}

fn tmr_of(start: u64, next: u64) -> Tmr
    ensures { result ≡ tmr_made start next }
{
    Tmr {
        start,
        next,
        con: 0,
        prd: 0,
        cnt0: 0,
        pending: 0,
    }
}

fn enc_of(next: u64, pending: u64, state: u64) -> Enc
    ensures { result ≡ enc_made next pending state }
{
    Enc {
        next,
        pending: (pending % 0x1_0000_0000) as u32,
        state: (state % 0x1_0000_0000) as u32,
    }
}

fn tmrs_of(rows: &[[u64; PLACES]; ROWS]) -> [Tmr; 4]
    ensures { result ≡ tmrs_from rows.now }
{
    let s = rows[11];
    let n = rows[12];
    [
        tmr_of(s[0], n[0]),
        tmr_of(s[1], n[1]),
        tmr_of(s[2], n[2]),
        tmr_of(s[3], n[3]),
    ]
}

fn encs_of(rows: &[[u64; PLACES]; ROWS]) -> [Enc; 8]
    ensures { result ≡ encs_from rows.now }
{
    let n = rows[38];
    let p = rows[39];
    let s = rows[40];
    [
        enc_of(n[0], p[0], s[0]),
        enc_of(n[1], p[1], s[1]),
        enc_of(n[2], p[2], s[2]),
        enc_of(n[3], p[3], s[3]),
        enc_of(n[4], p[4], s[4]),
        enc_of(n[5], p[5], s[5]),
        enc_of(n[6], p[6], s[6]),
        enc_of(n[7], p[7], s[7]),
    ]
}

// A block at a time: a function that holds one block alone is cheap to prove.
fn clock_of(mut c: Clock, rows: &[[u64; PLACES]; ROWS]) -> Clock
    ensures { result ≡ clock_from c rows.now }
{
    c.cycles = rows[1][0];
    c.next_due = rows[2][0];
    c.skipped = rows[3][0];
    c.skip_idle = low(rows[4][0]);
    c.in_isr = rows[5][0];
    c
}

fn t4_of(mut t: T4, rows: &[[u64; PLACES]; ROWS]) -> T4
    ensures { result ≡ t4_from t rows.now }
{
    t.con = low(rows[6][0]);
    t.base = rows[7][0];
    t.last_cnt_read = rows[8][0];
    t.cnt_streak = low(rows[9][0]);
    t
}

fn audio_of(mut a: Audio, rows: &[[u64; PLACES]; ROWS]) -> Audio
    ensures { result ≡ audio_from a rows.now }
{
    a.next = rows[15][0];
    a.half = rows[16][0];
    a.len = low(rows[17][0]);
    a
}

fn spi_of(mut s: Spi, rows: &[[u64; PLACES]; ROWS]) -> Spi
    ensures { result ≡ spi_from s rows.now }
{
    s.spi1_done_at = rows[18][0];
    s.spi1_irq_at = rows[19][0];
    s.spi1_wire = rows[20][0];
    s.spi2_next = rows[21][0];
    s
}

fn uart_of(mut u: Uart, rows: &[[u64; PLACES]; ROWS]) -> Uart
    ensures { result ≡ uart_from u rows.now }
{
    u.next = rows[22][0];
    u.ot_next = rows[23][0];
    u.dropped = rows[24][0];
    u.wr = low(rows[25][0]);
    u.rxcnt = low(rows[26][0]);
    u.place = low(rows[27][0]);
    u.count = low(rows[28][0]);
    u
}

fn host_of(mut h: Host, rows: &[[u64; PLACES]; ROWS]) -> Host
    ensures { result ≡ host_from h rows.now }
{
    h.usb_next = rows[29][0];
    h.usb_period = rows[30][0];
    h.wdt_at = rows[31][0];
    h
}

fn script_of(rows: &[[u64; PLACES]; ROWS]) -> Script
    ensures { result ≡ script_from rows.now }
{
    Script {
        at: rows[32][0],
        place: low(rows[33][0]),
        count: low(rows[34][0]),
    }
}

fn pins_of(mut p: Pins, rows: &[[u64; PLACES]; ROWS]) -> Pins
    ensures { result ≡ pins_from p rows.now }
{
    p.led_last = rows[35][0];
    p.led_since = rows[36][0];
    p.led_pend = rows[37][0];
    p
}

fn chip_of(mut c: Chip, rows: &[[u64; PLACES]; ROWS]) -> Chip
    ensures { result ≡ chip_from c rows.now }
{
    c.clock = clock_of(c.clock, rows);
    c.t4 = t4_of(c.t4, rows);
    c.t5.next = rows[10][0];
    let tmr = tmrs_of(rows);
    c.tmr = tmr;
    c.tick.start = rows[13][0];
    c.tick.next = rows[14][0];
    c.audio = audio_of(c.audio, rows);
    c.spi = spi_of(c.spi, rows);
    c.uart = uart_of(c.uart, rows);
    c.host = host_of(c.host, rows);
    c.script = script_of(rows);
    c.pins = pins_of(c.pins, rows);
    let enc = encs_of(rows);
    c.enc = enc;
    c.keys.vel = rows[41][0];
    let exc_pending = low(rows[42][0]);
    c.latch.exc_pending = exc_pending;
    c
}

// A force by its bits; those of no number are one NaN.
fn force(bits: u64) -> f32
    ensures { result ≡ force_from bits }
{
    let b = low(bits);
    if b % 0x8000_0000 <= 0x7f80_0000 {
        return f32::from_bits(b);
    }
    let zero = 0.0f32;
    zero / zero
}

fn forces(row: [u64; PLACES]) -> [f32; PLACES]
    ensures { result ≡ map force_from row }
{
    let mut f = [0.0f32; PLACES];
    for (i, bits) in row.iter().enumerate() {
        f[i] = force(*bits);
    }
    f
}

fn lows(row: [u64; PLACES]) -> [u32; PLACES]
    ensures { result ≡ map low_of row }
{
    let mut l = [0u32; PLACES];
    for (i, v) in row.iter().enumerate() {
        l[i] = low(*v);
    }
    l
}

fn panel_of(mut p: Panel, rows: &[[u64; PLACES]; ROWS]) -> Panel
    ensures { result ≡ panel_from p rows.now }
{
    let t0 = rows[43];
    let dur = lows(rows[44]);
    let from = forces(rows[45]);
    let to = forces(rows[46]);
    let ramps = Ramps { t0, dur, from, to };
    let acc = rows[47];
    p.ramps = ramps;
    p.acc = acc;
    p
}

pub fn board_of(rows: &[[u64; PLACES]; ROWS]) -> Board
    ensures { result ≡ board_from rows.now }
{
    Board {
        chip: chip_of(Chip::new(low(rows[0][0])), rows),
        panel: panel_of(Panel::new(), rows),
    }
}
