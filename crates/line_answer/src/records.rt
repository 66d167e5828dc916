// What a record says.
ghost use Rattle.std.specs.Prelude.{◌≡◌, length};
ghost use Rattle.text.specs.Putting.{place_after_all, put_all};
ghost use Rattle.line_answer.specs.Records.{record_text};

use crate::forms::put_form;

// A record's kind, in document 01's order, and its numbers; clicks below 0 apart.
#[derive(Clone, Copy, Debug, PartialEq, Eq)]
pub enum Record {
    Key { time: u64, id: u8, down: bool },
    Enc { time: u64, enc: u8, clicks: u32 },
    EncBack { time: u64, enc: u8, clicks: u32 },
    Adc { time: u64, ch: u8, value: u16 },
    Midi { time: u64, b: u8 },
    KeyVel { time: u64, vel: u8 },
    Pressure { time: u64, id: u8, vel: u8 },
    Read { addr: u32 },
    Write { addr: u32, value: u32 },
    Step { cycles: u64 },
}

#[tactic(auto, unfolding(crate::specs::Records::record_text))]
pub fn put_record(out: &mut [u8], to: usize, what: Record) -> usize
    ensures place { result ≡ place_after_all (length out.old) to (record_text what) }
    ensures bytes { out.new ≡ put_all out.old to (record_text what) }
{
    match what {
        Record::Key { time, id, down } => put_form(
            out,
            to,
            b"% key % %",
            &[time, id as u64, base::when(down, 1) as u64],
        ),
        Record::Enc { time, enc, clicks } => put_form(
            out,
            to,
            b"% enc % %",
            &[time, enc as u64, clicks as u64],
        ),
        Record::EncBack { time, enc, clicks } => put_form(
            out,
            to,
            b"% enc % -%",
            &[time, enc as u64, clicks as u64],
        ),
        Record::Adc { time, ch, value } => put_form(
            out,
            to,
            b"% adc % %",
            &[time, ch as u64, value as u64],
        ),
        Record::Midi { time, b } => put_form(out, to, b"% midi %", &[time, b as u64]),
        Record::KeyVel { time, vel } => put_form(out, to, b"% vel %", &[time, vel as u64]),
        Record::Pressure { time, id, vel } => put_form(
            out,
            to,
            b"% pressure % %",
            &[time, id as u64, vel as u64],
        ),
        Record::Read { addr } => put_form(out, to, b"read %", &[addr as u64]),
        Record::Write { addr, value } => put_form(
            out,
            to,
            b"write % %",
            &[addr as u64, value as u64],
        ),
        Record::Step { cycles } => put_form(out, to, b"step %", &[cycles]),
    }
}
