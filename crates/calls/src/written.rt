// What is written: each line and its answer behind those that wait.
ghost use Rattle.std.specs.Prelude.{◌≡◌, length};
ghost use Rattle.text.specs.Putting.{place_after_all, put_all};
ghost use Rattle.calls.specs.Waiting.{place_for, answered_text};

use crate::lines::BUFFER;
use line_answer::Answer;
use line_ask::LINE;
use text::{STDOUT, first};

// Those that wait are written out before there could be no room for this one.
pub fn put_line(
    out: &mut [u8; BUFFER],
    to: usize,
    room: &[u8; LINE],
    n: usize,
    a: Answer,
    lights: &[u64; 41],
) -> usize
    ensures place { result ≡ place_after_all (length out.old) (place_for to) (answered_text room.now n a lights.now) }
    ensures bytes { out.new ≡ put_all out.old (place_for to) (answered_text room.now n a lights.now) }
{
    let start = flushed(out, to);
    line_answer::put_line(out, start, first(room, n), a, lights)
}

fn flushed(out: &[u8; BUFFER], to: usize) -> usize
    ensures { result ≡ place_for to }
{
    if 57344 < to {
        return flush(out, to);
    }
    to
}

// Writes what waits; then nothing does. What a write takes is beyond a contract.
pub fn flush(out: &[u8; BUFFER], n: usize) -> usize
    ensures { result ≡ 0 }
{
    io::write_all(STDOUT, first(out, n));
    0
}
