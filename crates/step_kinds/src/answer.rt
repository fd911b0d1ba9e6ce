// What an event comes to.
use base::refusal::Refusal;
use state_parts::state::{Model, State};

// What an accepted event comes to: the state after it, whether it pulses, and the flags that it hands back.
#[derive(Clone, Copy)]
pub struct Finished {
    pub state: State,
    pub pulse: bool,
    pub handed: u32,
}

// What a refused event comes to: the refusal, its place and the old model.
#[derive(Clone, Copy)]
pub struct Refused {
    pub refusal: Refusal,
    pub place: usize,
    pub model: Model,
}
