// The calls that move the model of an image.
ghost use Rattle.std.specs.Prelude.{◌≡◌};
ghost use Rattle.c_calls.specs.Landing.{both, answered, number_in};
ghost use Rattle.c_calls.specs.Playing.{unread, event_call_of};
ghost use Rattle.c_calls.specs.PublicPromises.{OffPromise, PlayPromise, EventPromise};

use crate::answer::{Answer, Played, answered};
use crate::landing::{land, ready};
use base::refusal::Refusal;
use state_parts::state::Model;
use step_event::replaying;

// Makes the image of a model before its power-on.
#[tactic(auto, unfolding(crate::specs::Playing::off_of, c_image::specs::Images::saved_in))]
pub fn cheukdane_off(image: &mut [u8]) -> Answer
    ensures { OffPromise image.old result image.new }
{
    if c_image::save(image, Model::Off) {
        answered(Ok(0))
    } else {
        answered(Err(Refusal::OutOfRange))
    }
}

// No record was read.
fn unread(number: u32, told: usize, place: usize) -> Played
    ensures { result ≡ unread number told place }
{
    Played {
        number,
        kind: 0,
        place: told,
        next: place,
    }
}

// Plays the record at a place of a log.
#[tactic(auto, using(crate::proofs::Lands::ready_long, crate::proofs::Lands::lands_alone), unfolding(crate::specs::Playing::play_of))]
pub fn cheukdane_play(image: &mut [u8], log: &[u8], place: usize, shown: &mut [u8]) -> Played
    ensures { PlayPromise image.old log.now place shown.old result image.new shown.new }
{
    let model = match ready(image, shown.len(), 28) {
        Ok(model) => model,
        Err(refusal) => return unread(u32::from(refusal), place, place),
    };
    let got = log_record::read(log, place);
    let (e, next) = match got {
        Ok(Some(record)) => record,
        Ok(None) => return unread(0, place, place),
        Err(misread) => return unread(u32::from(misread.refusal), misread.place, place),
    };
    let kind = u8::from(log_event::kind(e));
    let ended = replaying::run(&[], model, 0, got);
    Played {
        number: land(image, shown, ended.walk),
        kind: u32::from(kind),
        place,
        next,
    }
}

// One event outside a log: its number, or the refusal of what isn't played. The number of an event that was played may be its refusal's, as `land` and `land_of` have it.
#[tactic(auto, using(crate::proofs::Lands::ready_long, crate::proofs::Lands::lands_alone), unfolding(crate::specs::Playing::event_call_of))]
fn given(image: &mut [u8], kind: u32, bytes: &[u8], shown: &mut [u8]) -> Result<u32, Refusal>
    ensures { both (answered (number_in result)) image.new shown.new ≡ event_call_of image.old kind bytes.now shown.old }
{
    let model = ready(image, shown.len(), 28)?;
    let e = c_event::event_of(kind, bytes)?;
    let ended = replaying::run(&[], model, 0, Ok(Some((e, 0))));
    Ok(land(image, shown, ended.walk))
}

// One event outside a log.
pub fn cheukdane_event(image: &mut [u8], kind: u32, bytes: &[u8], shown: &mut [u8]) -> Answer
    ensures { EventPromise image.old kind bytes.now shown.old result image.new shown.new }
{
    answered(given(image, kind, bytes, shown))
}
