// A state that holds what it may: an event moves no other.
ghost use Rattle.std.specs.Prelude.{◌≡◌, true};
ghost use Rattle.state_valid.specs.Holds.{state_ok};

use state_parts::state::State;

#[derive(Clone, Copy)]
pub struct Valid {
    pub state: State,
    ghost passes: { state_ok state ≡ true },
}
