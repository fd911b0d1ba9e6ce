// A model's image: its format, its numbers as words, and the model back out of them.
#![tactic(auto)]

ghost use Rattle.std.specs.Prelude.{◌≡◌, ◌∷◌, length};
ghost use Rattle.c_words.specs.Same.{same_bytes};
ghost use Rattle.c_image.specs.Images.{image_length, image_of, model_numbers, model_from};
ghost use Rattle.c_image.specs.PublicPromises.{LoadPromise, SavePromise};

use c_list::list::{Numbers, numbers_of};
use c_list::made::made;
use c_list::places::COUNT;
use c_words::same::same;
use state_parts::state::Model;

// The first word of the image of a model that is on: the number of this list of a state's numbers and of the rules that make them (`image_format`). Never 0, the first word of a model
// that is off.
const FORMAT: u32 = 8;

// An image's bytes: four to a word, the first word and the state's numbers (`image_length`).
const LENGTH: usize = 4 + COUNT * 4;

// The first word of a model's image, and the numbers after it.
fn words_of(m: Model) -> (u32, Numbers)
    ensures { result.0 ∷ result.1 ≡ model_numbers m }
{
    match m {
        Model::Off => (0, [0; COUNT]),
        Model::On(s) => (FORMAT, numbers_of(s)),
    }
}

// Saves a model in a part of an image's length: whether it is of that length. If not, no byte is changed. A test and no `Result`: `SavePromise` says no refusal, and callers of a held image need none.
#[tactic(auto, using(crate::proofs::Stores::both_put), unfolding(crate::specs::Images::saved_in, crate::specs::Images::image_of))]
pub fn save(image: &mut [u8], m: Model) -> bool
    ensures { SavePromise image.old m result image.new }
{
    if image.len() != LENGTH {
        return false;
    }
    let (first, all) = words_of(m);
    // Both have room, so neither is refused.
    let _ = c_words::write(image, &[first]);
    let _ = c_words::write(&mut image[4..], &all);
    true
}

// The model that bytes of an image's length would be the image of.
#[tactic(auto, using(crate::proofs::Stores::off_is, crate::proofs::Stores::on_is))]
fn model_from(image: &[u8]) -> Model
    requires { length image.now ≡ image_length }
    ensures { result ≡ model_from image.now }
{
    let mut first = [0; 1];
    c_words::read(image, &mut first);
    if first[0] == 0 {
        return Model::Off;
    }
    let mut all = [0; COUNT];
    c_words::read(&image[4..], &mut all);
    Model::On(made(all))
}

// Whether bytes of an image's length are a model's image.
#[tactic(auto, using(crate::proofs::Stores::both_same), unfolding(crate::specs::Images::image_of))]
fn is_image(image: &[u8], m: Model) -> bool
    requires { length image.now ≡ image_length }
    ensures { result ≡ same_bytes (image_of m) image.now }
{
    let (first, all) = words_of(m);
    let begins = same(&[first], &image[..4]);
    let goes_on = same(&all, &image[4..]);
    begins & goes_on
}

// The model of an image; `None` if the bytes aren't one.
#[tactic(auto, using(crate::proofs::Stores::not_long), unfolding(crate::specs::Images::model_in))]
pub fn load(image: &[u8]) -> Option<Model>
    ensures { LoadPromise image.now result }
{
    if image.len() != LENGTH {
        return None;
    }
    let model = model_from(image);
    // Not `then_some`, which would have the model on the stack once more (small stack).
    if is_image(image, model) {
        Some(model)
    } else {
        None
    }
}
