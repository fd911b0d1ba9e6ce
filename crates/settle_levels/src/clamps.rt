// Pin faults, and what the pins leave of the voltage that is set.
// What a rule goes by are its parameters, as in its definition: with the whole state in their place each law of the rule would speak of whole states.
ghost use Rattle.std.specs.Prelude.{◌≡◌};
ghost use Rattle.settle_levels.specs.Clamps.{fault_of, pack_clamp_of, base_of};

use base::units::{CellMv, PackMv};
use base::{choice, units};
use state_fields::named;
use state_parts::pins;
use state_parts::profile::Profile;
use state_parts::registers::Registers;
use state_parts::settings::Settings;

// Whether a pin's code stands for a fault that no override lifts.
#[tactic(auto, unfolding(crate::specs::Clamps::fault_of))]
pub fn pin_fault(profile: Profile, registers: Registers) -> bool
    ensures { result ≡ fault_of profile registers }
{
    let cells = registers.cells;
    let vchg = named::vchg_override(registers);
    let ichg = named::ichg_override(registers);
    (cells == 0) | ((profile.vchg == 0) & !vchg) | ((profile.ichg == 0) & !ichg)
}

// What the pack may be charged to at most.
#[tactic(auto, unfolding(crate::specs::Clamps::pack_clamp_of))]
fn pack_clamp(profile: Profile, registers: Registers) -> PackMv
    ensures { result ≡ pack_clamp_of profile registers }
{
    let lifted = named::vchg_override(registers);
    let cells = registers.cells;
    let ceiling = CellMv(profile.ceiling);
    let pin = pins::vchg(profile);
    let each = choice::either(lifted, ceiling, pin);
    units::in_pack(each, cells)
}

// The base voltage, before any band's cut.
#[tactic(auto, unfolding(crate::specs::Clamps::base_of))]
pub fn base(profile: Profile, settings: Settings, registers: Registers) -> PackMv
    ensures { result ≡ base_of profile settings registers }
{
    let vreg = settings.vreg;
    let clamp = pack_clamp(profile, registers);
    units::lower(vreg, clamp)
}
