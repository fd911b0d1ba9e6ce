// The register reset.
ghost use Rattle.std.specs.Prelude.{◌≡◌};
ghost use Rattle.state_parts.specs.With.{with_registers};
ghost use Rattle.state_registers.specs.Resets.{reset_registers, reset_of};
ghost use Rattle.state_registers.specs.PublicPromises.{ResetPromise};

use state_fields::holding::restored;
use state_parts::profile::Profile;
use state_parts::registers::Registers;
use state_parts::state::State;
use state_start::{start_cycle, start_settings, start_watchdog};

// The registers after a reset: the cell count stays, and what the sheet doesn't mark.
#[tactic(auto, unfolding(crate::specs::Resets::reset_registers))]
fn restore(p: Profile, g: Registers) -> Registers
    ensures { result ≡ reset_registers p g }
{
    let words = restored(p, g.words);
    Registers { words, ..g }
}

// The state with these registers after a register reset, before it settles.
#[tactic(auto, unfolding(crate::specs::Resets::reset_of))]
pub fn reset_with(s: State, g: Registers) -> State
    ensures { result ≡ reset_of (with_registers s g) }
{
    let settings = start_settings(s.profile, g.cells);
    let registers = restore(s.profile, g);
    let cycle = start_cycle();
    let watchdog = start_watchdog();
    State {
        settings,
        registers,
        cycle,
        watchdog,
        ..s
    }
}

// The state after a register reset, before it settles.
pub fn reset(s: State) -> State
    ensures { ResetPromise s result }
{
    let g = s.registers;
    reset_with(s, g)
}
