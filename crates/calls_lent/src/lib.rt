// The board's calls for `calls` that are lent memory, the script as words, the bytes behind the jack, the LEDs' times or the banks: each carried out as a line asks,
// and what it answers.
#![tactic(auto)]

ghost use Rattle.std.specs.Prelude.{◌≡◌};
ghost use Rattle.board_runner.specs.Calls.{led_call};
ghost use Rattle.board.specs.Calls.{write_first, write_second};
ghost use Rattle.board.specs.Steps.{apply_queue};
ghost use Rattle.calls_lent.specs.Lent.{ran_words, came_to, stepped_in, pushed_in, stored_in, applied_in, numbered, lit_as, reading_of, written_of};

use board_guard::BANK_WORDS;
use calls_answers::{Boarded, read_answer, step_answer};
use line_answer::Answer;
use records::Action;
use script::SCRIPT_WORDS;
use state::Board;
use step::{OUT_BYTES, Stepped};
use uart::QUEUE_LEN;

// The records that a step writes of its actions are not shown: the answer has their number.
#[tactic(auto, unfolding(crate::specs::Lent::stepped_in, crate::specs::Lent::ran_words))]
pub fn stepped(
    b: Board,
    n: u64,
    queue: &mut [u8; QUEUE_LEN],
    script: &[u64; SCRIPT_WORDS],
) -> Boarded
    ensures value { result ≡ stepped_in b n script.now queue.old }
    ensures memory { queue.new ≡ (ran_words b n script.now queue.old).1.0 }
{
    let mut acts = [0u8; OUT_BYTES];
    came_to(board_words::advance(b, n, queue, script, &mut acts))
}

#[tactic(auto, unfolding(crate::specs::Lent::came_to))]
fn came_to(s: Stepped) -> Boarded
    ensures { result ≡ came_to s }
{
    let board = s.board;
    let half = s.audio_half;
    let byte = s.uart_rx;
    Boarded {
        board,
        answer: step_answer(
            s.refused,
            board.chip.clock.cycles,
            half,
            byte,
            s.usb_frame,
            s.wdt,
            s.applied,
        ),
    }
}

pub fn pushed(b: Board, time: u64, action: Action, script: &mut [u64; SCRIPT_WORDS]) -> Boarded
    ensures value { result ≡ pushed_in b time script.old }
    ensures memory { script.new ≡ stored_in b time action script.old }
{
    let p = board_words::push(b, script, time, action);
    let board = p.board;
    numbered(board, p.refused)
}

// An action at once.
pub fn applied(b: Board, action: Action, queue: &mut [u8; QUEUE_LEN]) -> Boarded
    ensures value { result ≡ applied_in b action queue.old }
    ensures memory { queue.new ≡ apply_queue b action queue.old }
{
    let d = board::apply(b, action, queue);
    let board = d.board;
    numbered(board, d.refused)
}

fn numbered(board: Board, refused: u32) -> Boarded
    ensures { result ≡ numbered board refused }
{
    Boarded {
        board,
        answer: Answer::Number(refused as u64),
    }
}

// The span; the lit times go to `lights`.
pub fn lit(b: Board, lights: &mut [u64; 41]) -> Boarded
    ensures value { result ≡ lit_as (led_call b) }
    ensures memory { lights.new ≡ (led_call b).lit }
{
    let taken = board::led_take(b);
    let board = taken.board;
    let times = taken.lit;
    *lights = times;
    Boarded {
        board,
        answer: Answer::Lights { span: taken.span }.unless_refused(taken.refused),
    }
}

// ---- registers

#[tactic(auto, unfolding(crate::specs::Lent::reading_of))]
pub fn read<'a>(
    b: Board,
    addr: u32,
    icfg: &'a [u32; BANK_WORDS],
    icfg1: &'a [u32; BANK_WORDS],
) -> Boarded
    ensures { result ≡ reading_of b addr icfg.now icfg1.now }
{
    let reading = board::read(b, addr, icfg, icfg1);
    let board = reading.board;
    let value = reading.value;
    Boarded {
        board,
        answer: read_answer(reading.refused, value, board.chip.clock),
    }
}

#[tactic(auto, unfolding(crate::specs::Lent::written_of))]
pub fn write(
    b: Board,
    addr: u32,
    value: u32,
    icfg: &mut [u32; BANK_WORDS],
    icfg1: &mut [u32; BANK_WORDS],
) -> Boarded
    ensures value { result ≡ written_of b addr value icfg.old icfg1.old }
    ensures first { icfg.new ≡ write_first b addr value icfg.old icfg1.old }
    ensures second { icfg1.new ≡ write_second b addr value icfg.old icfg1.old }
{
    let written = board::write(b, addr, value, icfg, icfg1);
    let board = written.board;
    Boarded {
        board,
        answer: Answer::Flag(written.handled).unless_refused(written.refused),
    }
}
