// The script: scheduled actions, a ring of ENTRIES lent entries, each a time and an action. The record has the place of the front, how many wait, and the
// front's time, so that the next event is known without the entries. Times need not be sorted; the front alone is looked at.
//
// Lend the same entries to each call and go on with the ring that it answers: `push` puts an entry behind the last, `look` shows what stands at a place,
// `take` takes the front. A call that is refused says why and leaves the entries as they were; the ring is then the one that was lent. Whoever holds
// the script as plain words, two an entry, reads them by `entry_of`, and goes by the ring's own functions.
#![tactic(auto)]

ghost use Rattle.std.specs.Prelude.{◌≡◌, ◌<◌, length};
ghost use Rattle.script.specs.Script.{
  entries,
  script_new,
  front_time,
  script_whole,
  spot_of,
  full_of,
  pushed_of,
  looked_of,
  next_place,
  taken_of,
};
ghost use Rattle.script.specs.Entries.{
  no_entry,
  front_of,
  agrees_of,
  lent_of,
  spot_for,
  push_of,
  push_in,
  take_at,
  take_of,
};
ghost use Rattle.script.specs.Words.{packed, word_of, action_of, entry_of, places_of};

use base::{NEVER, Refusal};
use records::Action;

#[repr(C)]
#[derive(Clone, Copy, Debug, PartialEq, Eq)]
pub struct Script {
    // the front's time, while any wait
    pub at: u64,
    pub place: u32,
    pub count: u32,
}

#[derive(Clone, Copy, Debug, PartialEq, Eq)]
pub struct Entry {
    pub at: u64,
    pub action: Action,
}

// What a script shows at a place: its length, and the entry there. It is no Option past the end: the step and its theorems look by a function from places (`ran`), where each place has an entry.
#[derive(Clone, Copy, Debug, PartialEq, Eq)]
pub struct Front {
    pub len: usize,
    pub entry: Entry,
}

// Where a push puts its entry, and the ring then.
#[derive(Clone, Copy, Debug, PartialEq, Eq)]
pub struct Spot {
    pub ring: Script,
    pub place: usize,
}

// The front, and the ring without it.
#[derive(Clone, Copy, Debug, PartialEq, Eq)]
pub struct Took {
    pub ring: Script,
    pub entry: Entry,
}

pub const ENTRIES: u32 = 256;

// The same as a length, and as plain words, two an entry.
pub const SCRIPT_LEN: usize = ENTRIES as usize;

pub const SCRIPT_WORDS: usize = 2 * SCRIPT_LEN;

impl Script {
    pub fn new() -> Self
        ensures { result ≡ script_new }
    {
        Script {
            at: NEVER,
            place: 0,
            count: 0,
        }
    }

    // When the front is due: never while the ring is empty.
    pub fn front_time(self) -> u64
        ensures { result ≡ front_time self }
    {
        if self.count == 0 {
            return NEVER;
        }
        self.at
    }

    // Its part of a whole record.
    pub fn whole(self) -> bool
        ensures { result ≡ script_whole self }
    {
        (self.place < ENTRIES) & (self.count <= ENTRIES)
    }

    // Where the front is looked for.
    pub fn front_place(self) -> usize
        ensures { result ≡ self.place }
    {
        self.place as usize
    }

    // Where the entry behind the front is looked for.
    pub fn next_place(self) -> usize
        ensures { result ≡ next_place self }
    {
        (self.place as usize + 1) % ENTRIES as usize
    }

    // Where a push puts its entry.
    pub fn spot(self) -> usize
        ensures { result ≡ spot_of self }
    {
        (self.place as usize + self.count as usize) % ENTRIES as usize
    }

    pub fn full(self) -> bool
        ensures { result ≡ full_of self }
    {
        ENTRIES <= self.count
    }

    // One more waits. Its time is the front's if none waited: an entry behind others is not looked at.
    pub fn pushed(self, at: u64) -> Self
        requires { self.count < entries }
        ensures { result ≡ pushed_of self at }
    {
        Script {
            at: if self.count == 0 { at } else { self.at },
            place: self.place,
            count: self.count + 1,
        }
    }

    // A look at the front showed its time.
    pub fn looked(self, at: u64) -> Self
        ensures { result ≡ looked_of self at }
    {
        Script {
            at,
            place: self.place,
            count: self.count,
        }
    }

    // The front is gone. The next look tells the new front's time.
    pub fn taken(self) -> Self
        requires { (0 < self.count) × (self.place < entries) }
        ensures { result ≡ taken_of self }
    {
        Script {
            at: self.at,
            place: (self.place + 1) % ENTRIES,
            count: self.count - 1,
        }
    }

    // Whether the lent front is the one that the record tells of.
    pub fn agrees(self, front: Front) -> bool
        ensures { result ≡ agrees_of self front }
    {
        (self.count == 0) | (front.entry.at == self.at)
    }

    // Whether `len` lent entries and this ring can be used.
    fn lent(self, len: usize) -> Result<(), Refusal>
        ensures { result ≡ lent_of self len }
    {
        if len != SCRIPT_LEN {
            return Err(Refusal::Size);
        }
        if !self.whole() {
            return Err(Refusal::State);
        }
        Ok(())
    }

    // What a push does to a ring of `len` lent entries.
    pub fn spot_for(self, len: usize, e: Entry) -> Result<Spot, Refusal>
        ensures { result ≡ spot_for self len e }
    {
        self.lent(len)?;
        if self.full() {
            return Err(Refusal::Full);
        }
        Ok(Spot {
            ring: self.pushed(e.at),
            place: self.spot(),
        })
    }

    // What a take answers, by what stands at the front and behind it: the front, where one waits.
    pub fn take_at(self, front: Front, next: Front) -> Result<Option<Took>, Refusal>
        ensures { result ≡ take_at self front next }
    {
        self.lent(front.len)?;
        if self.count == 0 {
            return Ok(None);
        }
        Ok(Some(Took {
            ring: self.taken().looked(next.entry.at),
            entry: front.entry,
        }))
    }
}

fn no_entry() -> Entry
    ensures { result ≡ no_entry }
{
    Entry {
        at: 0,
        action: Action::Key { id: 0, down: false },
    }
}

// ---- the lent entries

// What stands at a place.
pub fn look(script: &[Entry], place: usize) -> Front
    ensures { result ≡ front_of script.now place }
{
    let len = script.len();
    let entry = if place < len {
        script[place]
    } else {
        no_entry()
    };
    Front { len, entry }
}

// An entry goes behind the last. A refused push leaves the entries as they were.
pub fn push(ring: Script, script: &mut [Entry], e: Entry) -> Result<Script, Refusal>
    ensures { (result ≡ push_of ring (length script.old) e) × (script.new ≡ push_in ring script.old e) }
{
    let spot = ring.spot_for(script.len(), e)?;
    script[spot.place] = e;
    Ok(spot.ring)
}

// The front leaves, and the entry behind it tells the ring its time. There is none where none waits.
pub fn take(ring: Script, script: &[Entry]) -> Result<Option<Took>, Refusal>
    ensures { result ≡ take_of ring script.now }
{
    let front = look(script, ring.front_place());
    let next = look(script, ring.next_place());
    ring.take_at(front, next)
}

// ---- the script as plain words, two an entry: the time, and the action

// An action as a word: its kind in the lowest three bits, its first field in the next eight, its second above. The kinds' numbers are the C interface's.
pub fn word_of(a: Action) -> u64
    ensures { result ≡ word_of a }
{
    match a {
        Action::Key { id, down } => pack(0, id, base::when(down, 1)),
        Action::Enc { enc, clicks } => pack(1, enc, clicks),
        Action::Adc { ch, value } => pack(2, ch, value as u32),
        Action::Midi { b } => pack(3, b, 0),
        Action::KeyVel { vel } => pack(4, vel, 0),
        Action::Pressure { id, vel } => pack(5, id, vel as u32),
    }
}

fn pack(kind: u8, first: u8, second: u32) -> u64
    ensures { result ≡ packed kind first second }
{
    (kind as u64) + 8 * (first as u64) + 0x800 * (second as u64)
}

// The action that a word is. Kinds 6 and 7, which `word_of` makes none of, are read as Pressure.
#[tactic(auto, using(base::specs::Tests::tests), unfolding(crate::specs::Words::action_of))]
pub fn action_of(w: u64) -> Action
    ensures { result ≡ action_of w }
{
    let first = (w / 8 % 0x100) as u8;
    match w % 8 {
        0 => Action::Key {
            id: first,
            down: w / 0x800 % 2 == 1,
        },
        1 => Action::Enc {
            enc: first,
            clicks: (w / 0x800 % 0x1_0000_0000) as u32,
        },
        2 => Action::Adc {
            ch: first,
            value: (w / 0x800 % 0x1_0000) as u16,
        },
        3 => Action::Midi { b: first },
        4 => Action::KeyVel { vel: first },
        _ => Action::Pressure {
            id: first,
            vel: (w / 0x800 % 0x100) as u8,
        },
    }
}

pub fn entry_of(at: u64, w: u64) -> Entry
    ensures { result ≡ entry_of at w }
{
    Entry {
        at,
        action: action_of(w),
    }
}

// How many entries so many words are. An odd number of words is no script.
pub fn places(n: usize) -> usize
    ensures { result ≡ places_of n }
{
    if n % 2 == 0 {
        return n / 2;
    }
    0
}
