// An event as what it does to a model.
ghost use Rattle.std.specs.Prelude.{◌≡◌};
ghost use Rattle.step_turns.specs.Turns.{held_profile, held_sample, opens_with, observes_with, turn_of};

use crate::later::Later;
use crate::{coded, ranges};
use log_event::Event;
use log_event::spelled::{SpelledProfile, SpelledSample};
use state_parts::profile::Profile;
use state_parts::sample::Sample;

// It opens a run with a held profile, or it follows; or a number of it is outside its kind's range. Four cases and no `Result`: where no power-on came before, what is outside a range is judged by
// whether it opens or follows.
#[derive(Clone, Copy)]
pub enum Turn {
    Opens(Profile),
    Follows(Later),
    OpensOutside,
    FollowsOutside,
}

// The edition of the pack's sheet that kinds 1 and 9 mean. A number and no enum: a log may have any, and `edition_in_range` says which of them open a run.
const FIRST_EDITION: u32 = 1;

// The profile that is held of a power-on, with the edition.
fn held_profile(p: SpelledProfile, edition: u32) -> Profile
    ensures { result ≡ held_profile p edition }
{
    Profile {
        cell: p.cell,
        vchg: p.vchg,
        ichg: p.ichg,
        ohms: p.ohms,
        stamp: p.stamp,
        ceiling: p.ceiling,
        trickle: p.trickle,
        precharge: p.precharge,
        fast: p.fast,
        watchdog: p.watchdog,
        edition,
    }
}

// The sample that is held of an observation, with the second thermistor's value.
fn held_sample(x: SpelledSample, second: u32) -> Sample
    ensures { result ≡ held_sample x second }
{
    Sample {
        stamp: x.stamp,
        input: x.input,
        pack: x.pack,
        ibat: x.ibat,
        ts: x.ts,
        secondts: second,
        bits: x.bits,
    }
}

// What a power-on with these numbers does.
fn opens_with(p: SpelledProfile, edition: u32) -> Turn
    ensures { result ≡ opens_with p edition }
{
    if ranges::edition_in_range(p, edition) {
        Turn::Opens(held_profile(p, edition))
    } else {
        Turn::OpensOutside
    }
}

// What an observation with these numbers does.
fn observes_with(x: SpelledSample, second: u32) -> Turn
    ensures { result ≡ observes_with x second }
{
    if ranges::two_in_range(x, second) {
        Turn::Follows(Later::Observe(held_sample(x, second)))
    } else {
        Turn::FollowsOutside
    }
}

// What an event does.
#[tactic(auto, unfolding(crate::specs::Turns::turn_of))]
pub fn turn_of(e: Event) -> Turn
    ensures { result ≡ turn_of e }
{
    match e {
        Event::PowerOn(p) => opens_with(p, FIRST_EDITION),
        Event::Set(number, value) => Turn::Follows(Later::Set(number, value)),
        Event::Write(address, byte) => Turn::Follows(Later::Write(address, byte)),
        Event::TakeFlags => Turn::Follows(Later::TakeFlags),
        Event::Observe(x) => observes_with(x, x.ts),
        Event::Service => Turn::Follows(Later::Service),
        Event::Reset => Turn::Follows(Later::Reset),
        Event::PowerOnResistors(r) => {
            if ranges::resistors_in_range(r) {
                opens_with(coded::coded(r), FIRST_EDITION)
            } else {
                Turn::OpensOutside
            }
        }
        Event::ObserveTwo(t) => {
            let x = t.sample;
            let second = t.second;
            observes_with(x, second)
        }
        Event::PowerOnEdition(v) => {
            let p = v.profile;
            let edition = v.edition;
            opens_with(p, edition)
        }
        Event::WriteRun(address, raw) => Turn::Follows(Later::WriteRun(address, raw)),
        Event::ReadFlags(address) => Turn::Follows(Later::ReadFlags(address)),
    }
}
