// The keys: which are down, how hard the next will land, and the force on each, a ramp (crate pressure). The ramps are kept as an array a field, which a
// test of the whole record goes through at a third of the cost; `ramp_at` is a key's. A press turns them where they are kept, so that no array is copied.
// `now` is the clock in cycles, `hz` its rate.
#![tactic(auto)]

ghost use Rattle.std.specs.Prelude.{◌≡◌, ◌≤◌, ◌<◌, ◌^◌, Float};
ghost use Rattle.keys.specs.Keys.{
  keys_new,
  ramps_new,
  is_down,
  ramp_of,
  turned_ramps,
  vel_written,
  landing_of,
  goal_of,
  time_of,
  key_of,
  pressure_of,
  up_to,
  forces,
  ramps_whole,
  keys_whole,
};
ghost use Rattle.keys.specs.Facts.{RampsShort};

use pressure::{Ramp, is_force, vel_force};
use times::{RampTime, ms_cycles};

#[repr(C)]
#[derive(Clone, Copy, Debug, PartialEq, Eq)]
pub struct Keys {
    // bit i is key i
    pub down: u64,
    // the velocity of the next presses, 1 to 127
    pub vel: u64,
}

#[repr(C)]
#[derive(Clone, Copy, Debug, PartialEq)]
pub struct Ramps {
    pub t0: [u64; 41],
    pub dur: [u32; 41],
    pub from: [f32; 41],
    pub to: [f32; 41],
}

impl Ramps {
    pub fn new() -> Self
        ensures { result ≡ ramps_new }
    {
        Ramps {
            t0: [0u64; 41],
            dur: [0u32; 41],
            from: [0.0f32; 41],
            to: [0.0f32; 41],
        }
    }

    // Key i's ramp.
    pub fn ramp_at(&self, i: usize) -> Ramp
        requires { i < 41 }
        ensures { result ≡ ramp_of self.now i }
    {
        Ramp {
            from: self.from[i],
            to: self.to[i],
            t0: self.t0[i],
            dur: self.dur[i] as u64,
        }
    }

    // Key i goes on to another force.
    fn turn(&mut self, i: usize, now: u64, force: f32, time: RampTime, hz: u32)
        requires { (i < 41) × RampsShort self.old }
        ensures { self.new ≡ turned_ramps self.old i now force time hz }
    {
        let r = self.ramp_at(i).turned(now, force, ms_cycles(time, hz));
        self.t0[i] = r.t0;
        self.dur[i] = r.dur as u32;
        self.from[i] = r.from;
        self.to[i] = r.to;
    }

    // Their part of a whole record.
    pub fn whole(&self, now: u64, hz: u32) -> bool
        ensures { result ≡ ramps_whole self.now now hz }
    {
        let longest = hz / 50;
        times_whole(&self.t0, now)
            & self.dur.iter().fold(true, |ok, d| ok & (*d <= longest))
            & forces_whole(&self.from)
            & forces_whole(&self.to)
    }
}

// Whether each of the times is at most `most`: the ramps' beginnings here, and the LEDs' times. A fold reads every element, so that it has no branch.
pub fn times_whole(a: &[u64; 41], most: u64) -> bool
    ensures { result ≡ up_to most a.now }
{
    a.iter().fold(true, |ok, t| ok & (*t <= most))
}

fn forces_whole(a: &[f32; 41]) -> bool
    ensures { result ≡ forces a.now }
{
    a.iter().fold(true, |ok, f| ok & is_force(*f))
}

// Whether the key of that id is down.
pub fn is_down(down: u64, id: u8) -> bool
    ensures { result ≡ is_down down id }
{
    if id < 41 {
        return (down >> id) % 2 == 1;
    }
    false
}

impl Keys {
    pub fn new() -> Self
        ensures { result ≡ keys_new }
    {
        Keys { down: 0, vel: 100 }
    }

    // The next keys' velocity.
    pub fn key_vel(mut self, vel: u8) -> Self
        ensures { result ≡ vel_written self vel }
    {
        self.vel = u64::from(vel.clamp(1, 127));
        self
    }

    // The force that a press lands at: buttons at 1.
    fn landing(self, id: u8) -> f32
        requires { self.vel ≤ 127 }
        ensures { result ≡ landing_of self id }
    {
        if id < 14 {
            return 1.0;
        }
        vel_force(self.vel as u8)
    }

    // The force that a key goes to, pressed or released.
    fn goal(self, id: u8, down: bool) -> f32
        requires { self.vel ≤ 127 }
        ensures { result ≡ goal_of self id down }
    {
        if down {
            return self.landing(id);
        }
        0.0
    }

    // Action Key: a key that is already so is left alone, and an id above 40 is none.
    pub fn key(mut self, ramps: &mut Ramps, id: u8, down: bool, now: u64, hz: u32) -> Self
        requires { (self.vel ≤ 127) × RampsShort ramps.old }
        ensures { (result ≡ (key_of self ramps.old id down now hz).keys) × (ramps.new ≡ (key_of self ramps.old id down now hz).ramps) }
    {
        if 41 <= id {
            return self;
        }
        if is_down(self.down, id) == down {
            return self;
        }
        ramps.turn(id as usize, now, self.goal(id, down), time_of(down), hz);
        self.down = self.down ^ (1u64 << id);
        self
    }

    // Action Pressure: a note key that is held goes to another force.
    pub fn pressure(self, ramps: &mut Ramps, id: u8, vel: u8, now: u64, hz: u32)
        requires { RampsShort ramps.old }
        ensures { ramps.new ≡ pressure_of self ramps.old id vel now hz }
    {
        if id < 14 {
            return;
        }
        if 41 <= id {
            return;
        }
        if is_down(self.down, id) {
            ramps.turn(id as usize, now, vel_force(vel), RampTime::Pressure, hz);
        }
    }

    // Its part of a whole record.
    pub fn whole(self) -> bool
        ensures { result ≡ keys_whole self }
    {
        (1 <= self.vel) & (self.vel <= 127)
    }
}

fn time_of(down: bool) -> RampTime
    ensures { result ≡ time_of down }
{
    if down {
        return RampTime::Press;
    }
    RampTime::Release
}
