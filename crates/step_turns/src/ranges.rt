// The ranges of kind 1's and kind 5's numbers, of the three that kind 9 has for codes, of the one that kind 10 has more than kind 5, and of the one that kind 11 has more than kind 1.
ghost use Rattle.std.specs.Prelude.{◌≡◌};
ghost use Rattle.step_turns.specs.Ranges.{profile_in_range, edition_in_range, sample_in_range, two_in_range, resistors_in_range};

use log_event::spelled::{SpelledProfile, SpelledResistors, SpelledSample};

// A power-on's numbers in their ranges. What is held of them is tested by `state_valid::holds::profile_ok`, a definition of its own: a later kind (02, R-9) may widen the one and not the other.
#[tactic(auto, unfolding(crate::specs::Ranges::profile_in_range))]
pub fn profile_in_range(p: SpelledProfile) -> bool
    ensures { result ≡ profile_in_range p }
{
    (p.cell <= 7)
        & (p.vchg <= 7)
        & (p.ichg <= 7)
        & (p.ohms <= 33000)
        & (4350 <= p.ceiling)
        & (p.ceiling <= 4714)
        & (p.trickle <= 172800)
        & (p.precharge <= 172800)
        & (p.fast <= 172800)
        & (p.watchdog <= 172800)
}

// The same, with the edition.
#[tactic(auto, unfolding(crate::specs::Ranges::edition_in_range))]
pub fn edition_in_range(p: SpelledProfile, edition: u32) -> bool
    ensures { result ≡ edition_in_range p edition }
{
    let others = profile_in_range(p);
    others & (1 <= edition) & (edition <= 2)
}

// An observation's numbers in their ranges.
#[tactic(auto, unfolding(crate::specs::Ranges::sample_in_range))]
pub fn sample_in_range(x: SpelledSample) -> bool
    ensures { result ≡ sample_in_range x }
{
    (x.input <= 45000)
        & (x.pack <= 45000)
        & (-10000 <= x.ibat)
        & (x.ibat <= 5000)
        & (x.ts <= 100000)
        & (x.bits <= 63)
}

// The same, with the second thermistor's value.
#[tactic(auto, unfolding(crate::specs::Ranges::two_in_range))]
pub fn two_in_range(x: SpelledSample, second: u32) -> bool
    ensures { result ≡ two_in_range x second }
{
    let first = sample_in_range(x);
    first & (second <= 100000)
}

// The resistors of a power-on in their range.
#[tactic(auto, unfolding(crate::specs::Ranges::resistors_in_range))]
pub fn resistors_in_range(r: SpelledResistors) -> bool
    ensures { result ≡ resistors_in_range r }
{
    (r.cell <= 100000) & (r.vchg <= 100000) & (r.ichg <= 100000)
}
