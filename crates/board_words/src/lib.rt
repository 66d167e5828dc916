// A new board, the step and the push for whoever holds the script as plain words, two an entry: its time, and its action as `script::word_of` packs it. Programs do, and so does the boundary to C. The
// calls answer for any record and any lent lengths, with the refusals of the same calls over entries; 512 words are a script.
#![tactic(auto)]

ghost use Rattle.std.specs.Prelude.{◌≡◌, length, get_or};
ghost use Rattle.board.specs.Steps.{new_refused, new_call, new_bank};
ghost use Rattle.script.specs.Words.{word_of, words_at, places_in};
ghost use Rattle.step.specs.Step.{ran, step_of, pushed_of};
ghost use Rattle.board_words.specs.Words.{shown_in, spot_in, stored_words};

use board::made;
use board_guard::Done;
use records::Action;
use script::{Entry, Front, entry_of, places, word_of};
use state::Board;
use step::{Stepped, begun, finished, placed, pushed, turned};

// A new board at `hz`, with empty queue and script, whose memory it leaves alone; the banks are zeroed.
pub fn new(hz: u64, queue: &[u8], script: &[u64], icfg: &mut [u32], icfg1: &mut [u32]) -> Done
    ensures value { result ≡ new_call hz (length queue.now) (places_in script.now) (length icfg.old) (length icfg1.old) }
    ensures first { icfg.new ≡ new_bank (new_refused hz (length queue.now) (places_in script.now) (length icfg.old) (length icfg1.old)) icfg.old }
    ensures second { icfg1.new ≡ new_bank (new_refused hz (length queue.now) (places_in script.now) (length icfg.old) (length icfg1.old)) icfg1.old }
{
    let entries = places(script.len());
    made(hz, queue.len(), entries, icfg, icfg1)
}

// Past the end stand zeros.
fn word(script: &[u64], i: usize) -> u64
    ensures { result ≡ get_or script.now i 0 }
{
    if i < script.len() {
        return script[i];
    }
    0
}

fn entry(script: &[u64], place: u32) -> Entry
    ensures { result ≡ words_at script.now place }
{
    let at = 2 * (place as usize);
    entry_of(word(script, at), word(script, at + 1))
}

fn look(script: &[u64], place: u32) -> Front
    ensures { result ≡ shown_in script.now place }
{
    let e = entry(script, place);
    Front {
        len: places(script.len()),
        entry: e,
    }
}

// The clock goes on by `cycles`, and what is due by then is served. Entries that are due are taken, applied and written to `out` as records.
pub fn advance(b: Board, cycles: u64, queue: &mut [u8], script: &[u64], out: &mut [u8]) -> Stepped
    ensures { (result ≡ step_of b cycles (words_at script.now) (places_in script.now) queue.old out.old)
        × (queue.new ≡ (ran b cycles (words_at script.now) (places_in script.now) queue.old out.old).1.0)
        × (out.new ≡ (ran b cycles (words_at script.now) (places_in script.now) queue.old out.old).1.1) }
{
    let front = look(script, b.chip.script.place);
    let mut g = begun(b, cycles, front, queue, out);
    while g.on {
        let e = entry(script, g.place as u32);
        g = turned(g, e, queue, out);
    }
    finished(g)
}

// An action that a step applies once `time` is reached.
pub fn push(b: Board, script: &mut [u64], time: u64, action: Action) -> Done
    ensures { (result ≡ pushed_of (spot_in b script.old time))
        × (script.new ≡ stored_words (spot_in b script.old time) script.old time (word_of action)) }
{
    let front = look(script, b.chip.script.place);
    let s = placed(b, front, time);
    if s.ok {
        let at = 2 * s.place;
        script[at] = time;
        script[at + 1] = word_of(action);
        return pushed(s);
    }
    pushed(s)
}
