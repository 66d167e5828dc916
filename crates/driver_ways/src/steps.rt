// A step; its script's entries are `driver_turns`.
ghost use Rattle.std.specs.Prelude.{◌≡◌, length};
ghost use Rattle.state.specs.Whole.{Whole};
ghost use Rattle.state.specs.declared.Board.{Board};
ghost use Rattle.step.specs.Step.{out_bytes};
ghost use Rattle.uart.specs.Uart.{queue_bytes};
ghost use Rattle.driver_carry.specs.Carry.{Agrees, stepped, step_in};
ghost use Rattle.step.specs.Apply.{board_of};

use crate::{Outcome, told};
use driver_carry::Answer;
use driver_turns::all_due;
use state::{Chip, Panel};
use step::{past_limit, serve};

pub fn step(
    mut c: Chip,
    panel: &mut Panel,
    cycles: u64,
    queue: &mut [u8],
    script: &[u64],
    acts: &mut [u8],
) -> Outcome
    ghost b: { Board }
    requires whole { Whole b × Agrees b script.now × (length queue.old ≡ queue_bytes) × (length acts.old ≡ out_bytes) }
    requires before { board_of c panel.old ≡ b }
    ensures { (board_of result.chip panel.new ≡ (stepped b cycles queue.old script.now acts.old).board)
        × (result.answer ≡ (stepped b cycles queue.old script.now acts.old).answer)
        × (queue.new ≡ (step_in b cycles queue.old script.now acts.old).1.0)
        × (acts.new ≡ (step_in b cycles queue.old script.now acts.old).1.1) }
{
    let number = past_limit(c.uart.dropped, c.clock.cycles, cycles);
    if number != 0 {
        return told(c, Answer::Refused { number });
    }
    let end = c.clock.cycles + cycles;
    c.clock.cycles = end;
    if end < c.clock.next_due {
        return told(
            c,
            Answer::Stepped {
                clock: end,
                audio: None,
                byte: None,
                applied: 0,
            },
        );
    }
    let s = serve(c, queue);
    c = s.chip;
    let audio = s.audio_half;
    let byte = s.uart_rx;
    let t = all_due(c, panel, queue, script, acts);
    c = t.chip;
    let next = c.next_event();
    c.clock.next_due = next;
    told(
        c,
        Answer::Stepped {
            clock: c.clock.cycles,
            audio,
            byte,
            applied: t.applied,
        },
    )
}
