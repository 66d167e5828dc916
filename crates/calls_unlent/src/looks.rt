// What a call that leaves the board as it is answers.
ghost use Rattle.std.specs.Prelude.{◌≡◌};
ghost use Rattle.calls_unlent.specs.Looks.{choice_told, chosen_of, counted_of, flagged_of, state_of};

use board::{Chosen, Flag, Number};
use irq::Choice;
use line_answer::Answer;
use state::Board;

pub fn state(b: Board) -> Answer
    ensures { result ≡ state_of b }
{
    let c = b.chip;
    Answer::State {
        clock: c.clock.cycles,
        due: c.clock.next_due,
        skipped: c.clock.skipped,
        halves: c.audio.halves,
        queued: c.uart.count,
        dropped: c.uart.dropped,
        script: c.script.count,
        wire: c.spi.spi1_wire,
        done: c.spi.spi1_done_at,
        vel: c.keys.vel,
    }
}

pub fn counted(n: Number) -> Answer
    ensures { result ≡ counted_of n }
{
    Answer::Number(n.value).unless_refused(n.refused)
}

pub fn flagged(f: Flag) -> Answer
    ensures { result ≡ flagged_of f }
{
    Answer::Flag(f.is).unless_refused(f.refused)
}

pub fn chosen(c: Chosen) -> Answer
    ensures { result ≡ chosen_of c }
{
    choice(c.choice).unless_refused(c.refused)
}

#[tactic(auto, unfolding(crate::specs::Looks::choice_told))]
fn choice(choice: Option<Choice>) -> Answer
    ensures { result ≡ choice_told choice }
{
    match choice {
        Some(Choice { irq, prio }) => Answer::Pair(irq as u64, prio as u64),
        None => Answer::NoValue,
    }
}
