// The six actions of the panel and the jack.
ghost use Rattle.std.specs.Prelude.{◌≡◌, ◌<◌, ◌^◌, length};
ghost use Rattle.keys.specs.Facts.{RampsShort};
ghost use Rattle.state.specs.Whole.{ChipOk, Sound};
ghost use Rattle.uart.specs.Uart.{queue_bytes};
ghost use Rattle.step.specs.Apply.{board_of, apply_of, apply_in};

use adc::set_value;
use panel::encs_turned;
use records::Action;
use state::{Board, Chip, Panel};

// What an action makes of the chip, of the panel, which stays where it is, and of the bytes behind the jack. Whatever it is, the next step looks at everything.
pub fn act(mut c: Chip, panel: &mut Panel, a: Action, queue: &mut [u8]) -> Chip
    requires { ChipOk c × RampsShort panel.old.ramps × (length queue.old ≡ queue_bytes) × (c.uart.dropped < 2 ^ 63) }
    ensures value { board_of result panel.new ≡ apply_of (board_of c panel.old) a }
    ensures memory { queue.new ≡ apply_in (board_of c panel.old) a queue.old }
{
    let now = c.clock.cycles;
    let hz = c.clock.hz;
    c.clock.next_due = 0;
    match a {
        Action::Key { id, down } => {
            let keys = c.keys.key(&mut panel.ramps, id, down, now, hz);
            c.keys = keys;
            return c;
        }
        Action::Enc { enc, clicks } => {
            let encs = c.enc;
            let turned = encs_turned(encs, enc, clicks, now);
            c.enc = turned;
            return c;
        }
        Action::Adc { ch, value } => {
            set_value(&mut panel.values, ch, value);
            return c;
        }
        Action::Midi { b } => {
            let uart = c.uart.offer(queue, b, now, hz);
            c.uart = uart;
            return c;
        }
        Action::KeyVel { vel } => {
            let keys = c.keys.key_vel(vel);
            c.keys = keys;
            return c;
        }
        Action::Pressure { id, vel } => {
            c.keys.pressure(&mut panel.ramps, id, vel, now, hz);
            return c;
        }
    }
}

// The same of a board by value.
pub fn apply(b: Board, a: Action, queue: &mut [u8]) -> Board
    requires { Sound b × (length queue.old ≡ queue_bytes) × (b.chip.uart.dropped < 2 ^ 63) }
    ensures value { result ≡ apply_of b a }
    ensures memory { queue.new ≡ apply_in b a queue.old }
{
    let mut panel = b.panel;
    let chip = act(b.chip, &mut panel, a, queue);
    Board { chip, panel }
}
