// A rate in 01's range, as a line's number.
ghost use Rattle.std.specs.Prelude.{◌≡◌};
ghost use Rattle.asks_times.specs.Rates.{rate_of, rate_in};

use base::{RATE_MAX, RATE_MIN};
use line_ask::Number;

#[derive(Clone, Copy, Debug, PartialEq, Eq)]
pub struct Rate(pub u32);

impl Number for Rate {
    ghost number_of = { rate_of };

    fn number_of(word: &[u8]) -> Option<Rate> {
        in_range(u32::number_of(word)?)
    }
}

#[tactic(auto, unfolding(crate::specs::Rates::rate_in))]
fn in_range(hz: u32) -> Option<Rate>
    ensures { result ≡ rate_in hz }
{
    if hz < RATE_MIN {
        return None;
    }
    if RATE_MAX < hz {
        return None;
    }
    Some(Rate(hz))
}
