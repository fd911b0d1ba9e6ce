// The call that plays a log's records from a place on.
ghost use Rattle.c_calls.specs.PublicPromises.{ReplayPromise};

use crate::answer::Replayed;
use base::refusal::Refusal;
use step_event::replaying;

// Plays every record of a log from a place on.
#[tactic(auto, unfolding(crate::specs::Replaying::replay_of))]
pub fn cheukdane_replay(image: &mut [u8], log: &[u8], place: usize) -> Replayed
    ensures { ReplayPromise image.old log.now place result image.new }
{
    let Some(model) = c_image::load(image) else {
        return Replayed {
            number: u32::from(Refusal::OutOfRange),
            code: 0,
            records: 0,
            place,
            next: place,
        };
    };
    let got = log_record::read(log, place);
    let ended = replaying::run(log, model, place, got);
    let after = ended.walk;
    c_image::save(image, after.model);
    Replayed {
        number: 0,
        code: ended.code,
        records: after.number as usize,
        place: ended.place,
        next: after.place,
    }
}
