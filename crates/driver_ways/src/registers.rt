// Registers read and written.
ghost use Rattle.std.specs.Prelude.{◌≡◌, ◌<◌, ◌^◌, length};
ghost use Rattle.base.specs.Bits.{unless_of};
ghost use Rattle.board.specs.Calls.{read_chip};
ghost use Rattle.driver_carry.specs.declared.Answer.TheVariants.{Wrote};
ghost use Rattle.irq.specs.Banks.{bank_words};
ghost use Rattle.keys.specs.Facts.{RampsShort};
ghost use Rattle.regs.specs.Writes.{board_written, handled_at, first_written, second_written};
ghost use Rattle.state.specs.Whole.{ChipOk};
ghost use Rattle.state.specs.declared.Board.{Board};
ghost use Rattle.step.specs.Apply.{board_of};
ghost use Rattle.driver_ways.specs.Told.{Part, read_out};

use crate::{Outcome, told};
use base::{CLOCK_MAX, TIME};
use driver_carry::Answer;
use panel::fm1;
use regs::{ICFG, ICFG1, handled, light, polled, polls, read, write_bank_at, write_chip};
use state::{Chip, Panel};

// The next step looks at everything where the interrupt's line moved.
fn due_after(moved: bool, next_due: u64) -> u64
    ensures { result ≡ unless_of moved next_due }
{
    if moved { 0 } else { next_due }
}

// The chip that a read finds: after a poll, where the read is one.
fn found_by(c: Chip, addr: u32) -> Chip
    requires { ChipOk c }
    ensures { result ≡ read_chip c addr }
{
    if polls(c, addr) {
        return polled(c);
    }
    c
}

pub fn read_at<'a>(c: Chip, addr: u32, icfg: &'a [u32], icfg1: &'a [u32]) -> Outcome
    requires { Part c × (length icfg.now ≡ bank_words) × (length icfg1.now ≡ bank_words) }
    ensures { result ≡ read_out c addr icfg.now icfg1.now }
{
    let d = found_by(c, addr);
    if CLOCK_MAX < d.clock.cycles {
        return told(c, Answer::Refused { number: TIME });
    }
    let value = read(d, icfg, icfg1, addr);
    told(d, Answer::Read { addr, value })
}

#[tactic(auto, unfolding(regs::specs::Writes::first_written, regs::specs::Writes::second_written))]
pub fn write_at(
    mut c: Chip,
    panel: &mut Panel,
    addr: u32,
    value: u32,
    icfg: &mut [u32],
    icfg1: &mut [u32],
) -> Outcome
    ghost b: { Board }
    requires chip_ok { ChipOk c × RampsShort panel.old.ramps × (length icfg.old ≡ bank_words) × (length icfg1.old ≡ bank_words) }
    requires before { board_of c panel.old ≡ b }
    ensures values_after { board_of result.chip panel.new ≡ board_written b addr value }
    ensures answer { (result.answer ≡ Wrote addr value (handled_at addr)) × (value < 2 ^ 32) }
    ensures first { icfg.new ≡ first_written icfg.old addr value }
    ensures second { icfg1.new ≡ second_written icfg1.old addr value }
{
    write_bank_at(icfg, ICFG, addr, value);
    write_bank_at(icfg1, ICFG1, addr, value);
    let is = handled(addr);
    if addr == 0x13100 {
        let wrote = c.adc.write_con(
            fm1(),
            c.pins,
            &panel.ramps,
            &panel.values,
            c.clock.cycles,
            value,
        );
        let due = due_after(wrote.due, c.clock.next_due);
        let adc = wrote.adc;
        c.clock.next_due = due;
        c.adc = adc;
        return told(
            c,
            Answer::Wrote {
                addr,
                value,
                handled: is,
            },
        );
    }
    light(&mut panel.acc, c.pins, addr, c.clock.cycles);
    c = write_chip(c, addr, value);
    told(
        c,
        Answer::Wrote {
            addr,
            value,
            handled: is,
        },
    )
}
