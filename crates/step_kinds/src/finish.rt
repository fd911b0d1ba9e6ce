// What every accepted event ends with: it settles, and its edges join the flags and may pulse.
ghost use Rattle.std.specs.Prelude.{◌≡◌};
ghost use Rattle.state_parts.specs.With.{with_flags};
ghost use Rattle.step_kinds.specs.Finish.{observing, flags_left, kept_by, handed_by, pulses_by};
ghost use Rattle.step_kinds.specs.PublicPromises.{FinishPromise};

use crate::answer::Finished;
use crate::change::Way;
use base::choice;
use report_registers::flags::flag_byte;
use settle_all::settle;
use state_parts::flags;
use state_parts::profile::Profile;
use state_parts::state::State;
use step_flags::between;
use step_flags::between::Seen;

// Whether an observation asks for the settling.
fn observing(way: Way) -> bool
    ensures { result ≡ observing way }
{
    matches!(way, Way::Observes)
}

// The flags that a read of a flag register leaves: it clears bits 0 to 7 at 0x20, and 8 to 11 at 0x21.
fn flags_left(address: u32, all: u32) -> u32
    ensures { result ≡ flags_left address all }
{
    choice::either(address == 0x20, all / 256 * 256, all % 256)
}

// The flags that are held after the event, of those that it found and raised.
fn kept_by(way: Way, all: u32) -> u32
    ensures { result ≡ kept_by way all }
{
    match way {
        Way::Plain | Way::Observes => all,
        Way::Takes => 0,
        Way::Reads(address) => flags_left(address, all),
        Way::Powers => 32,
    }
}

// What it hands back of them.
fn handed_by(p: Profile, way: Way, all: u32) -> u32
    ensures { result ≡ handed_by p way all }
{
    match way {
        Way::Takes => all,
        Way::Reads(address) => flag_byte(p, address, all) as u32,
        Way::Plain | Way::Observes | Way::Powers => 0,
    }
}

// Whether it pulses, by whether an edge does.
fn pulses_by(way: Way, edge: bool) -> bool
    ensures { result ≡ pulses_by way edge }
{
    match way {
        Way::Powers => true,
        Way::Plain | Way::Observes | Way::Takes | Way::Reads(_) => edge,
    }
}

// The state with these flags.
fn flagged(s: State, f: u32) -> State
    ensures { result ≡ with_flags s f }
{
    State { flags: f, ..s }
}

// Settles what an event wrote; `before` is what was seen of the state before it.
#[tactic(auto, unfolding(crate::specs::Finish::finish_of))]
pub fn finish(before: Seen, written: State, way: Way) -> Finished
    ensures { FinishPromise before written way result }
{
    let held = written.flags;
    let observed = observing(way);
    let after = settle::settle(written, observed);
    let masks = after.settings.masks;
    let now = between::seen_in(after);
    let edges = between::between(before, now);
    let all = flags::merge(held, edges);
    let kept = kept_by(way, all);
    let handed = handed_by(after.profile, way, all);
    let state = flagged(after, kept);
    let edge = flags::pulse(edges, masks);
    let pulse = pulses_by(way, edge);
    Finished {
        state,
        pulse,
        handed,
    }
}
