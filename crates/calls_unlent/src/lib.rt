// The board's calls for `calls` that are lent nothing, and those that only look: what each answers.
#![tactic(auto)]

mod looks;

ghost use Rattle.std.specs.Prelude.{◌≡◌};
ghost use Rattle.calls_unlent.specs.Deeds.{done_of, set_of, ticked_of};

use board::Done;
use calls_answers::{Boarded, Tells, told};
use line_answer::Answer;
use line_ask::Setting;
pub use looks::{chosen, counted, flagged, state};
use state::Board;

// ---- calls that answer the board and the number of a refusal

#[tactic(auto, unfolding(crate::specs::Deeds::done_of))]
pub fn done(tells: Tells, d: Done) -> Boarded
    ensures { result ≡ done_of tells d }
{
    let board = d.board;
    Boarded {
        board,
        answer: told(tells, d.refused, board.chip.spi, board.chip.clock),
    }
}

#[tactic(auto, unfolding(crate::specs::Deeds::set_of))]
pub fn set(b: Board, setting: Setting) -> Done
    ensures { result ≡ set_of b setting }
{
    match setting {
        Setting::CycleTicks(n) => board::set_cycle_ticks(b, n),
        Setting::RoomCap(n) => board::set_room_cap(b, n),
        Setting::SkipIdle(on) => board::set_skip_idle(b, on),
        Setting::InIsr(on) => board::set_in_isr(b, on),
        Setting::Exc(on) => board::set_exc_pending(b, on),
        Setting::Spi2Pending(on) => board::set_spi2_pending(b, on),
    }
}

#[tactic(auto, unfolding(crate::specs::Deeds::ticked_of))]
pub fn ticked(b: Board) -> Boarded
    ensures { result ≡ ticked_of b }
{
    let t = board::tick(b);
    let board = t.board;
    Boarded {
        board,
        answer: Answer::Flag(t.due).unless_refused(t.refused),
    }
}
