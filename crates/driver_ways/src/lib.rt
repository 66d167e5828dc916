// Pushes, reads, writes and steps on a board that is known to be whole, so that nothing is tested: `driver_known` chooses between them. The chip goes by value, the panel stays where it is, lent;
// each function has one caller, so that the compiler puts all of them into one and holds the chip field by field.
#![tactic(auto)]

mod registers;
mod steps;

ghost use Rattle.std.specs.Prelude.{◌≡◌, length};
ghost use Rattle.script.specs.Script.{ScriptOk};
ghost use Rattle.script.specs.Words.{word_of};
ghost use Rattle.driver_ways.specs.Told.{told_by, push_out, push_words};

use base::FULL;
use driver_carry::Answer;
use records::Action;
pub use registers::{read_at, write_at};
use script::word_of;
use state::Chip;
pub use steps::step;

// The chip after a record, and what the record answers.
#[derive(Clone, Copy)]
pub struct Outcome {
    pub chip: Chip,
    pub answer: Answer,
}

pub fn told(c: Chip, answer: Answer) -> Outcome
    ensures { result ≡ told_by c answer }
{
    Outcome { chip: c, answer }
}

pub fn push(mut c: Chip, script: &mut [u64], time: u64, action: Action) -> Outcome
    requires { ScriptOk c.script × (length script.old ≡ 512) }
    ensures { (result ≡ push_out c time) × (script.new ≡ push_words c script.old time (word_of action)) }
{
    if c.script.full() {
        return told(c, Answer::Pushed { number: FULL });
    }
    let at = 2 * c.script.spot();
    script[at] = time;
    script[at + 1] = word_of(action);
    let more = c.script.pushed(time);
    c.script = more;
    c.clock.next_due = 0;
    told(c, Answer::Pushed { number: 0 })
}
