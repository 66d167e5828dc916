// The driver's records, as far as they lie in memory: each is carried out and its line put behind those before it, so that a program adds reading and writing alone. What is printed for an input is
// `driver_lines` (specs/Records.antt). No record is longer than 17 bytes and no line than 116: while as many are left, or nothing more is to come, what is found is what the whole input has there.
#![tactic(auto)]

ghost use Rattle.std.specs.Prelude.{◌≡◌, false, ◌+◌, ◌-◌, ◌<◌, ◌^◌, length};
ghost use Rattle.driver_carry.specs.Carry.{Bench, bench_of, BenchOk};
ghost use Rattle.step.specs.Apply.{board_of};
ghost use Rattle.driver_records.specs.Records.{next_of, told_at, goes_on, Lined};

use driver_known::carried;
use driver_lines::put_line;
use records::{Broken, Record, decode};
use state::{Chip, Panel};

const LONGEST: usize = 17;

const LINE: usize = 116;

// Where it stands: the chip, how many bytes are done with, how many bytes of lines were put, and whether nothing comes after them.
#[derive(Clone, Copy)]
pub struct Went {
    pub chip: Chip,
    pub passed: usize,
    pub put: usize,
    pub ended: bool,
}

// Every record of the bytes, as long as there is room for a line and the next record is all there. The first byte has the offset `base` in the input; `last` says that nothing follows them.
// The line is put in both arms: put once before them, the compiler no longer holds the chip field by field, and the driver executes four tenths more.
pub fn put_lines(
    bytes: &[u8],
    base: usize,
    last: bool,
    out: &mut [u8],
    mut c: Chip,
    panel: &mut Panel,
    queue: &mut [u8],
    script: &mut [u64],
    icfg: &mut [u32],
    icfg1: &mut [u32],
    acts: &mut [u8],
) -> Went
    ghost h: { Bench }
    requires bench_ok { BenchOk h × (base + length bytes.now < 2 ^ 64) }
    requires before { bench_of (board_of c panel.old) queue.old script.old icfg.old icfg1.old acts.old ≡ h }
    ensures { Lined h bytes.now base last (bench_of (board_of result.chip panel.new) queue.new script.new icfg.new icfg1.new acts.new) result.passed out.new result.put result.ended
        × (goes_on result.ended (length bytes.now - result.passed) last (length out.new - result.put) ≡ false) }
{
    let mut at: usize = 0;
    let mut put: usize = 0;
    let mut ended = false;
    while goes(ended, bytes.len() - at, last, out.len() - put) {
        let found = told_at(decode(bytes, at), base + at);
        let o = carried(c, panel, found, queue, script, icfg, icfg1, acts);
        let d = o.chip;
        c = d;
        let answer = o.answer;
        let next = next_of(found, at);
        if next == at {
            ended = true;
            put = put_line(out, put, answer);
        } else {
            at = next;
            put = put_line(out, put, answer);
        }
    }
    Went {
        chip: c,
        passed: at,
        put,
        ended,
    }
}

// The next record can be carried out.
fn goes(ended: bool, left: usize, last: bool, room: usize) -> bool
    ensures { result ≡ goes_on ended left last room }
{
    !ended & (LINE <= room) & (last | (LONGEST <= left))
}

fn next_of(found: Result<Option<Record>, Broken>, at: usize) -> usize
    ensures { result ≡ next_of found at }
{
    match found {
        Ok(Some(record)) => record.next,
        _ => at,
    }
}

// A broken record is told by its offset in the input.
fn told_at(found: Result<Option<Record>, Broken>, offset: usize) -> Result<Option<Record>, Broken>
    ensures { result ≡ told_at found offset }
{
    found.or(Err(Broken { at: offset }))
}
