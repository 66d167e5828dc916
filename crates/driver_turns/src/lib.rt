// The script's entries that a step takes, on a chip by value and a panel that stays where it is, lent: `driver_turns` comes to what `step`'s turns come to.
#![tactic(auto)]

ghost use Rattle.std.specs.Prelude.{◌≡◌, ◌<◌, false, ltb, length};
ghost use Rattle.script.specs.Script.{entries};
ghost use Rattle.script.specs.Words.{words_at};
ghost use Rattle.step.specs.Step.{runs};
ghost use Rattle.step.specs.declared.Going.{Going};
ghost use Rattle.driver_turns.specs.Held.{Goes, going_by};

use records::encode_timed;
use script::{Entry, entry_of};
use state::{Chip, Panel};
use step::act;

// The chip once no entry is due, the bytes written and the entries taken.
#[derive(Clone, Copy)]
pub struct Taken {
    pub chip: Chip,
    pub written: usize,
    pub applied: u32,
}

// What stands at a place of the script.
fn entry(script: &[u64], place: u32) -> Entry
    requires { (length script.now ≡ 512) × (place < entries) }
    ensures { result ≡ words_at script.now place }
{
    let at = 2 * (place as usize);
    entry_of(script[at], script[at + 1])
}

// Every entry that is due: the front, later than the clock, stays, and its time is noted; else it is taken, applied and written with its own time. What `act` answers is
// the chip at once, with no write to lent memory between, so that the chip stays in single fields.
pub fn all_due(
    mut c: Chip,
    panel: &mut Panel,
    queue: &mut [u8],
    script: &[u64],
    acts: &mut [u8],
) -> Taken
    ghost g: { Going }
    requires script_len { (length script.now ≡ 512) × Goes (length queue.old) (length acts.old) g }
    requires before { going_by c panel.old 0 0 (ltb 0 c.script.count) ≡ g }
    ensures { (going_by result.chip panel.new result.written result.applied false, (queue.new, acts.new))
        ≡ runs c.script.count (words_at script.now) (g, (queue.old, acts.old)) }
{
    let mut written: usize = 0;
    let mut applied: u32 = 0;
    while 0 < c.script.count {
        let e = entry(script, c.script.place);
        if c.clock.cycles < e.at {
            let noted = c.script.looked(e.at);
            c.script = noted;
            break;
        }
        let rest = c.script.taken();
        c.script = rest;
        let action = e.action;
        let wrote = encode_timed(acts, written, e.at, action);
        let d = act(c, panel, action, queue);
        c = d;
        written = wrote.unwrap_or(written);
        applied += 1;
    }
    Taken {
        chip: c,
        written,
        applied,
    }
}
