// One of the driver's records carried out, by the public calls, for any board and any memory. It answers with all that the record's line has to say; lines are written elsewhere. A driver that
// knows its board whole (`BenchOk`) goes by `driver_known` in its place. The script is held as plain words, two an entry.
#![tactic(auto)]

ghost use Rattle.std.specs.Prelude.{◌≡◌, ◌<◌, ◌^◌};
ghost use Rattle.board.specs.Calls.{write_first, write_second};
ghost use Rattle.script.specs.Words.{word_of};
ghost use Rattle.board_words.specs.Words.{spot_in, stored_words};
ghost use Rattle.driver_carry.specs.Carry.{
  bench_of,
  BenchOk,
  pushed,
  answer_by,
  read_by,
  wrote_by,
  told_of,
  step_in,
  stepped,
  answer_of,
  after,
};

use audio::Half;
use records::{Action, Body, Broken, Order, Record};
use state::Board;
use step::Stepped;
use uart::Byte;

// What a record answers, with all that its line shows. `Nothing` is the end of the input.
#[derive(Clone, Copy)]
pub enum Answer {
    Pushed {
        number: u32,
    },
    Read {
        addr: u32,
        value: Option<u32>,
    },
    Wrote {
        addr: u32,
        value: u32,
        handled: bool,
    },
    Stepped {
        clock: u64,
        audio: Option<Half>,
        byte: Option<Byte>,
        applied: u32,
    },
    Refused {
        number: u32,
    },
    Broken {
        at: usize,
    },
    Nothing,
}

#[derive(Clone, Copy)]
pub struct Carried {
    pub board: Board,
    pub answer: Answer,
}

fn push(b: Board, script: &mut [u64], time: u64, action: Action) -> Carried
    ensures { (result ≡ pushed b script.old time)
        × (script.new ≡ stored_words (spot_in b script.old time) script.old time (word_of action)) }
{
    let p = board_words::push(b, script, time, action);
    Carried {
        board: p.board,
        answer: Answer::Pushed { number: p.refused },
    }
}

// Done, or refused with a number.
fn answer_by(done: Answer, refused: u32) -> Answer
    ensures { result ≡ answer_by done refused }
{
    if refused != 0 {
        return Answer::Refused { number: refused };
    }
    done
}

fn read<'a>(b: Board, addr: u32, icfg: &'a [u32], icfg1: &'a [u32]) -> Carried
    ensures { result ≡ read_by b addr icfg.now icfg1.now }
{
    let reading = board::read(b, addr, icfg, icfg1);
    let done = Answer::Read {
        addr,
        value: reading.value,
    };
    Carried {
        board: reading.board,
        answer: answer_by(done, reading.refused),
    }
}

fn write(b: Board, addr: u32, value: u32, icfg: &mut [u32], icfg1: &mut [u32]) -> Carried
    ensures { (result ≡ wrote_by b addr value icfg.old icfg1.old)
        × (icfg.new ≡ write_first b addr value icfg.old icfg1.old)
        × (icfg1.new ≡ write_second b addr value icfg.old icfg1.old)
        × (value < 2 ^ 32) }
{
    let written = board::write(b, addr, value, icfg, icfg1);
    Carried {
        board: written.board,
        answer: Answer::Wrote {
            addr,
            value,
            handled: written.handled,
        },
    }
}

// A step's answer as a record's.
pub fn told(s: Stepped) -> Carried
    ensures { result ≡ told_of s }
{
    let done = Answer::Stepped {
        clock: s.board.chip.clock.cycles,
        audio: s.audio_half,
        byte: s.uart_rx,
        applied: s.applied,
    };
    Carried {
        board: s.board,
        answer: answer_by(done, s.refused),
    }
}

fn step(b: Board, cycles: u64, queue: &mut [u8], script: &[u64], acts: &mut [u8]) -> Carried
    ensures { (result ≡ stepped b cycles queue.old script.now acts.old)
        × (queue.new ≡ (step_in b cycles queue.old script.now acts.old).1.0)
        × (acts.new ≡ (step_in b cycles queue.old script.now acts.old).1.1) }
{
    told(board_words::advance(b, cycles, queue, script, acts))
}

// What was found: a record that is carried out, or one that is broken, or none.
pub fn carry(
    b: Board,
    found: Result<Option<Record>, Broken>,
    queue: &mut [u8],
    script: &mut [u64],
    icfg: &mut [u32],
    icfg1: &mut [u32],
    acts: &mut [u8],
) -> Carried
    ensures answer_value { result.answer ≡ answer_of (bench_of b queue.old script.old icfg.old icfg1.old acts.old) found }
    ensures bench { (bench_of result.board queue.new script.new icfg.new icfg1.new acts.new) ≡ after (bench_of b queue.old script.old icfg.old icfg1.old acts.old) found }
    ensures kept { BenchOk (bench_of b queue.old script.old icfg.old icfg1.old acts.old) → BenchOk (bench_of result.board queue.new script.new icfg.new icfg1.new acts.new) }
{
    match found {
        Ok(Some(record)) => match record.body {
            Body::Timed { time, action } => push(b, script, time, action),
            Body::Order(order) => match order {
                Order::Read { addr } => read(b, addr, icfg, icfg1),
                Order::Write { addr, value } => write(b, addr, value, icfg, icfg1),
                Order::Step { cycles } => step(b, cycles, queue, script, acts),
            },
        },
        Ok(None) => Carried {
            board: b,
            answer: Answer::Nothing,
        },
        Err(Broken { at }) => Carried {
            board: b,
            answer: Answer::Broken { at },
        },
    }
}
