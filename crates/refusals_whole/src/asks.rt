// What is asked of a record: `ms`, a step and a push at once, or one of the calls that look at more of it than that it is whole.
ghost use Rattle.std.specs.Prelude.{◌≡◌};
ghost use Rattle.refusals_rows.specs.Rows.{board_from, low};
ghost use Rattle.refusals_whole.specs.Asked.{asked_of, call_of, read_tried, three_at, three_of};

use crate::lent::{apply, push, step};
use board_guard::BANK_WORDS;
use refusals_lines::Answer;
use refusals_rows::{PLACES, ROWS, board_of, put_at};
use script::SCRIPT_WORDS;
use state::Board;
use step::OUT_BYTES;
use text::find;
use uart::QUEUE_BYTES;

#[derive(Clone, Copy, Debug, PartialEq, Eq)]
pub enum Call {
    Step,
    Push,
    Apply,
    Tick,
    Idle,
    Read,
    Spi1Start,
    Spi2Start,
}

const CALLS: [(&[u8], Call); 8] = [
    (b"step", Call::Step),
    (b"push", Call::Push),
    (b"apply", Call::Apply),
    (b"tick", Call::Tick),
    (b"idle", Call::Idle),
    (b"read", Call::Read),
    (b"spi1_start", Call::Spi1Start),
    (b"spi2_start", Call::Spi2Start),
];

pub fn call_of(name: &[u8]) -> Option<Call>
    ensures { result ≡ call_of name.now }
{
    find(&CALLS, name)
}

// The record with a number at a place of a row.
pub fn three(rows: &[[u64; PLACES]; ROWS], k: usize, i: u64, v: u64) -> Answer
    ensures { result ≡ three_at rows.now k i v }
{
    let mut changed = *rows;
    put_at(&mut changed, k, i, v);
    three_of(board_of(&changed))
}

fn three_of(b: Board) -> Answer
    ensures { result ≡ three_of b }
{
    let front = b.chip.script.at;
    Answer::Three(
        board::ms(b).refused,
        step(
            b,
            0,
            QUEUE_BYTES as u64,
            SCRIPT_WORDS as u64,
            OUT_BYTES as u64,
            front,
        ),
        push(b, SCRIPT_WORDS as u64, front),
    )
}

pub fn asked(rows: &[[u64; PLACES]; ROWS], call: Call, n: [u64; 5]) -> u32
    ensures { result ≡ asked_of (board_from rows.now) call n }
{
    of_board(board_of(rows), call, n)
}

#[tactic(auto, unfolding(crate::specs::Asked::asked_of))]
fn of_board(b: Board, call: Call, n: [u64; 5]) -> u32
    ensures { result ≡ asked_of b call n }
{
    match call {
        Call::Step => step(b, n[0], n[1], n[2], n[3], n[4]),
        Call::Push => push(b, n[0], n[1]),
        Call::Apply => apply(b, n[0], n[1]),
        Call::Tick => board::tick(b).refused,
        Call::Idle => board::idle(b).refused,
        Call::Read => read(b, low(n[0])),
        Call::Spi1Start => board::spi1_start(b, low(n[0]), low(n[1]), true).refused,
        Call::Spi2Start => board::spi2_start(b, low(n[0]), low(n[1]), true).refused,
    }
}

fn low(n: u64) -> u32
    ensures { result ≡ low n }
{
    (n % 0x1_0000_0000) as u32
}

fn read(b: Board, addr: u32) -> u32
    ensures { result ≡ read_tried b addr }
{
    let icfg = [0u32; BANK_WORDS];
    let icfg1 = [0u32; BANK_WORDS];
    board::read(b, addr, &icfg, &icfg1).refused
}
