// The driver's records on a board that is known to be whole (`BenchOk`), so that nothing is tested for each of them: `carried` answers what `driver_carry` does, by one way for each kind (crate `driver_ways`).
#![tactic(auto)]

ghost use Rattle.std.specs.Prelude.{◌≡◌};
ghost use Rattle.driver_carry.specs.Carry.{Bench, bench_of, BenchOk, answer_of, after};
ghost use Rattle.step.specs.Apply.{board_of};

use driver_carry::Answer;
use driver_ways::{Outcome, push, read_at, step, told, write_at};
use records::{Body, Broken, Order, Record};
use state::{Chip, Panel};

// What was found: a record that is carried out, or one that is broken, or none.
pub fn carried(
    c: Chip,
    panel: &mut Panel,
    found: Result<Option<Record>, Broken>,
    queue: &mut [u8],
    script: &mut [u64],
    icfg: &mut [u32],
    icfg1: &mut [u32],
    acts: &mut [u8],
) -> Outcome
    ghost h: { Bench }
    requires bench_ok { BenchOk h }
    requires before { bench_of (board_of c panel.old) queue.old script.old icfg.old icfg1.old acts.old ≡ h }
    ensures { (result.answer ≡ answer_of h found)
        × (bench_of (board_of result.chip panel.new) queue.new script.new icfg.new icfg1.new acts.new ≡ after h found)
        × BenchOk (bench_of (board_of result.chip panel.new) queue.new script.new icfg.new icfg1.new acts.new) }
{
    match found {
        Ok(Some(record)) => match record.body {
            Body::Timed { time, action } => push(c, script, time, action),
            Body::Order(order) => match order {
                Order::Read { addr } => read_at(c, addr, icfg, icfg1),
                Order::Write { addr, value } => write_at(c, panel, addr, value, icfg, icfg1),
                Order::Step { cycles } => step(c, panel, cycles, queue, script, acts),
            },
        },
        Ok(None) => told(c, Answer::Nothing),
        Err(Broken { at }) => told(c, Answer::Broken { at }),
    }
}
