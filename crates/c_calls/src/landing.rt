// What an event leaves in the image and the answer buffer.
ghost use Rattle.std.specs.Prelude.{◌≡◌, length};
ghost use Rattle.step_event.specs.Walks.{came_told};
ghost use Rattle.c_image.specs.Images.{image_length};
ghost use Rattle.c_calls.specs.Landing.{both, ready_told, ready_of, shown_numbers, land_of};

use base::choice;
use base::refusal::Refusal;
use report_state::report;
use state_parts::state::Model;
use step_event::walking::Walk;

// The model of an image, for an answer buffer that has so many bytes and must have as many as are wanted.
#[tactic(auto, unfolding(crate::specs::Landing::ready_of))]
pub(crate) fn ready(image: &[u8], room: usize, wanted: usize) -> Result<Model, Refusal>
    ensures { ready_told result ≡ ready_of image.now room wanted }
{
    let model = c_image::load(image).ok_or(Refusal::OutOfRange)?;
    if room < wanted {
        return Err(Refusal::NoRoom);
    }
    Ok(model)
}

// What an accepted event shows.
type Shown = [u32; 7];

#[tactic(auto, unfolding(crate::specs::Landing::shown_numbers))]
fn shown_numbers(m: Model, pulse: bool, handed: u32) -> Shown
    ensures { result ≡ shown_numbers m pulse handed }
{
    let beat = choice::bit(pulse);
    match m {
        Model::Off => [0, 0, 0, 0, beat, 0, handed],
        Model::On(s) => {
            let told = report::report(s);
            let phase = u32::from(told.phase);
            let current = told.current;
            let voltage = u32::from(told.voltage);
            let limit = told.limit;
            let flags = s.flags;
            [phase, current, voltage, limit, beat, flags, handed]
        }
    }
}

// Leaves what an event came to, the only one of a walk, in the image and the answer buffer: its number, 0 or its refusal's, as the walk has it.
#[tactic(auto, unfolding(crate::specs::Landing::land_of, c_image::specs::Images::saved_in))]
pub(crate) fn land(image: &mut [u8], shown: &mut [u8], walk: Walk) -> u32
    requires { length image.old ≡ image_length }
    ensures { both result image.new shown.new ≡ land_of (came_told walk) image.old shown.old }
{
    let after = walk.model;
    let came = walk.came;
    if came.number != 0 {
        return came.number;
    }
    let numbers = shown_numbers(after, came.pulse, came.handed);
    // It has room, as `ready` saw.
    let _ = c_words::write(shown, &numbers);
    c_image::save(image, after);
    0
}
