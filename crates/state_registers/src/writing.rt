// Writing a register.
ghost use Rattle.std.specs.Prelude.{◌≡◌};
ghost use Rattle.base.specs.Pick.{pick};
ghost use Rattle.state_registers.specs.Writes.{known_address, count_taken, recounted, written_to};
ghost use Rattle.state_registers.specs.PublicPromises.{WritePromise};

use base::choice;
use base::refusal::Refusal;
use base::units::in_pack;
use state_fields::named;
use state_fields::taking::taken;
use state_parts::pins;
use state_parts::profile::Profile;
use state_parts::registers::Registers;
use state_parts::settings::Settings;
use state_parts::state::State;
use state_start::start_vsysmin;

// One of the eight addresses.
fn known(address: u32) -> bool
    ensures { result ≡ known_address address }
{
    (0x15 <= address) & (address <= 0x1C)
}

// A written cell count is taken.
pub fn count_taken(g: Registers, address: u32, byte: u32) -> bool
    ensures { result ≡ count_taken g address byte }
{
    let overridden = named::cell_override(g);
    let cells = g.cells;
    let count = byte / 1 % 8;
    (address == 0x1B) & overridden & !(count == 0) & !(count == cells)
}

// The settings with a written cell count, where that is taken. The two that go by it are chosen one by one: a choice between whole settings lays both of them, and the state that one
// is part of, on the stack.
#[tactic(auto, unfolding(crate::specs::Writes::recounted))]
pub fn recount(count: bool, p: Profile, cells: u32, t: Settings) -> Settings
    ensures { result ≡ pick count (recounted p cells t) t }
{
    let fault = p.vchg == 0;
    let each = pins::vchg(p);
    let full = in_pack(each, cells);
    let vreg = choice::either(count & !fault, full, t.vreg);
    let start = start_vsysmin(p, cells);
    let vsysmin = choice::either(count, start, t.vsysmin);
    Settings { vreg, vsysmin, ..t }
}

// The state after a write that isn't refused.
#[tactic(auto, unfolding(crate::specs::Writes::written_registers, crate::specs::Writes::written_to))]
fn written(s: State, address: u32, byte: u32) -> State
    ensures { result ≡ written_to s address byte }
{
    let held = s.registers;
    let count = count_taken(held, address, byte);
    let settings = recount(count, s.profile, byte / 1 % 8, s.settings);
    let words = taken(s.profile, held.words, address, byte);
    let cells = choice::either(count, byte / 1 % 8, held.cells);
    let registers = Registers { words, cells };
    State {
        settings,
        registers,
        ..s
    }
}

// The host writes a byte at an address.
#[tactic(auto, unfolding(crate::specs::Writes::write_of))]
pub fn write(s: State, address: u32, byte: u32) -> Result<State, Refusal>
    ensures { WritePromise s address byte result }
{
    if !known(address) {
        return Err(Refusal::UnknownAddress);
    }
    if 255 < byte {
        return Err(Refusal::OutOfRange);
    }
    let code = byte / 1 % 8;
    if (address == 0x16) & !named::has_frequency(s.profile, code) {
        return Err(Refusal::BadFrequency);
    }
    Ok(written(s, address, byte))
}
