// One event on the model.
ghost use Rattle.std.specs.Prelude.{◌≡◌};
ghost use Rattle.step_kinds.specs.Answers.{verdict_told};
ghost use Rattle.step_kinds.specs.Changes.{change_told};
ghost use Rattle.step_event.specs.Steps.{observe_of, followed_of, moved_of, first_of, change_of, model_ok, nothing_seen, seen_on, turned_by, step_of};
ghost use Rattle.step_event.specs.PublicPromises.{StepPromise};

use crate::clock;
use crate::valid::Valid;
use base::refusal::Refusal;
use base::stamp;
use log_event::Event;
use state_parts::sample::Sample;
use state_parts::state::{Model, State};
use state_registers::resetting;
use state_valid::holds;
use step_flags::between;
use step_flags::between::Seen;
use step_kinds::answer::{Finished, Refused};
use step_kinds::change::Way;
use step_kinds::{finish, plain};
use step_turns::later::Later;
use step_turns::turn;
use step_turns::turn::Turn;

#[tactic(auto, unfolding(crate::specs::Steps::observe_of))]
fn observe(valid: Valid, x: Sample) -> Result<(State, Way), Refusal>
    ensures { change_told result ≡ observe_of valid.state x }
{
    let ms = stamp::elapsed(valid.state.sample.stamp, x.stamp);
    if 3600000 < ms {
        return Err(Refusal::StampAhead);
    }
    Ok((clock::observed(valid, x), Way::Observes))
}

// What follows a power-on.
#[tactic(auto, unfolding(crate::specs::Steps::followed_of))]
fn follow(valid: Valid, e: Later) -> Result<(State, Way), Refusal>
    ensures { change_told result ≡ followed_of valid.state e }
{
    let s = valid.state;
    match e {
        Later::Set(number, value) => plain::set(s, number, value),
        Later::Write(address, byte) => plain::write(s, address, byte),
        Later::TakeFlags => Ok((s, Way::Takes)),
        Later::Observe(x) => observe(valid, x),
        Later::Service => Ok((plain::serviced(s), Way::Plain)),
        Later::Reset => Ok((resetting::reset(s), Way::Plain)),
        Later::WriteRun(address, raw) => plain::write_run(s, address, raw),
        Later::ReadFlags(address) => plain::read_flags(s, address),
    }
}

// An event on a model that is on.
#[tactic(auto, unfolding(crate::specs::Steps::moved_of))]
fn moved(valid: Valid, t: Turn) -> Result<(State, Way), Refusal>
    ensures { change_told result ≡ moved_of valid.state t }
{
    match t {
        Turn::Opens(p) => Ok(plain::opened(p)),
        Turn::Follows(e) => follow(valid, e),
        Turn::OpensOutside | Turn::FollowsOutside => Err(Refusal::OutOfRange),
    }
}

// An event on a model that is off.
#[tactic(auto, unfolding(crate::specs::Steps::first_of))]
fn first(t: Turn) -> Result<(State, Way), Refusal>
    ensures { change_told result ≡ first_of t }
{
    match t {
        Turn::Opens(p) => Ok(plain::opened(p)),
        Turn::OpensOutside => Err(Refusal::OutOfRange),
        Turn::Follows(_) | Turn::FollowsOutside => Err(Refusal::NotPowered),
    }
}

// Whether a model holds what it may.
#[tactic(auto, unfolding(crate::specs::Steps::model_ok))]
pub fn model_ok(m: Model) -> bool
    ensures { result ≡ model_ok m }
{
    match m {
        Model::Off => true,
        Model::On(s) => holds::state_ok(s),
    }
}

// What an event writes, on a model of which it is known whether it holds what it may. That stands beside the model, here and below, and not in a struct with it: a loop asks it once, of a model that
// then moves.
#[tactic(auto, unfolding(crate::specs::Steps::change_of))]
fn change(ok: bool, m: Model, t: Turn) -> Result<(State, Way), Refusal>
    requires { ok ≡ model_ok m }
    ensures { change_told result ≡ change_of m t }
{
    match m {
        Model::Off => first(t),
        Model::On(s) => {
            if ok {
                moved(Valid { state: s }, t)
            } else {
                Err(Refusal::OutOfRange)
            }
        }
    }
}

// Of a model that is off.
fn nothing_seen() -> Seen
    ensures { result ≡ nothing_seen }
{
    Seen {
        good: false,
        iindpm: false,
        vindpm: false,
        thermal: false,
        expired: false,
        phase: 0,
        band: 0,
        inputover: false,
        shutdown: false,
        packover: false,
        limit: false,
    }
}

// What flags are edges of.
#[tactic(auto, unfolding(crate::specs::Steps::seen_on))]
fn seen_on(m: Model) -> Seen
    ensures { result ≡ seen_on m }
{
    match m {
        Model::Off => nothing_seen(),
        Model::On(s) => between::seen_in(s),
    }
}

// What a turn comes to, on a model of which it is known whether it holds what it may.
#[tactic(auto, unfolding(crate::specs::Steps::turned_by))]
fn turned(ok: bool, m: Model, t: Turn) -> Result<Finished, Refusal>
    requires { ok ≡ model_ok m }
    ensures { verdict_told m result ≡ turned_by m t }
{
    let before = seen_on(m);
    let (written, way) = change(ok, m, t)?;
    Ok(finish::finish(before, written, way))
}

// An event on a model of which it is known whether it holds what it may.
#[tactic(auto, unfolding(crate::specs::Steps::step_of))]
pub(crate) fn step_known(ok: bool, m: Model, e: Event) -> Result<Finished, Refusal>
    requires { ok ≡ model_ok m }
    ensures { verdict_told m result ≡ step_of m e }
{
    turned(ok, m, turn::turn_of(e))
}

// One event on the model.
pub fn step(m: Model, e: Event) -> Result<Finished, Refused>
    ensures { StepPromise m e result }
{
    step_known(model_ok(m), m, e).map_err(|refusal| Refused {
        refusal,
        place: 0,
        model: m,
    })
}
