// Forces, each as the f32's bits.
ghost use Rattle.std.specs.Prelude.{◌≡◌};
ghost use Rattle.asks_times.specs.Forces.{ramp_in, ramp_of, force_of, bits_of, velocity_of};

use base::CLOCK_MAX;
use line_ask::{Number, Words};
use pressure::Ramp;

// The bits of 1.0, the greatest force.
const ONE: u32 = 0x3f80_0000;

// A ramp's force at a moment, `FROM TO T0 DUR NOW`, and no word more.
#[tactic(auto, unfolding(crate::specs::Forces::ramp_in))]
pub fn ramp_in(words: Words) -> Option<u64>
    ensures { result ≡ ramp_in words.entry.line.now words.entry.word }
{
    let behind = words.next();
    let from = u64::number_of(words.bytes())?;
    let to = u64::number_of(behind.bytes())?;
    let (t0, dur, now) = behind.next().three()?;
    ramp_at(from, to, t0, dur, now)
}

#[tactic(auto, unfolding(crate::specs::Forces::ramp_of))]
fn ramp_at(from: u64, to: u64, t0: u64, dur: u64, now: u64) -> Option<u64>
    ensures { result ≡ ramp_of from to t0 dur now }
{
    if u64::from(ONE) < from {
        return None;
    }
    if u64::from(ONE) < to {
        return None;
    }
    if CLOCK_MAX < t0 {
        return None;
    }
    if 16_000_000 < dur {
        return None;
    }
    let r = Ramp {
        from: force_of(from as u32),
        to: force_of(to as u32),
        t0,
        dur,
    };
    Some(u64::from(bits(r.at(now))))
}

// The force of such bits.
fn force_of(bits: u32) -> f32
    ensures { result ≡ force_of bits }
{
    if bits <= ONE {
        return f32::from_bits(bits);
    }
    0.0
}

// Where a key lands for a velocity.
#[tactic(auto, unfolding(crate::specs::Forces::velocity_of))]
pub fn of_velocity(vel: u8) -> u64
    ensures { result ≡ velocity_of vel }
{
    u64::from(bits(pressure::vel_force(vel)))
}

// No force is below 0, or no number.
fn bits(f: f32) -> u32
    ensures { result ≡ bits_of f }
{
    if 0.0 <= f {
        return f32::to_bits(f);
    }
    0xffff_ffff
}
