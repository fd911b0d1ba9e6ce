// What printing a page comes to.
use step_event::walking::Walk;

// How many bytes were written, the walk behind the page, and whether nothing follows.
#[derive(Clone, Copy)]
pub struct Printed {
    pub bytes: usize,
    pub walk: Walk,
    pub over: bool,
}
