// The code that a field reads as.
ghost use Rattle.std.specs.Prelude.{◌≡◌, ◌+◌, ◌≤◌, ◌%◌, ◌^◌};
ghost use Rattle.state_table.specs.Packed.{field_at};
ghost use Rattle.step_flags.specs.Edges.{seen_of};
ghost use Rattle.report_registers.specs.Reads.{charge_stat, status_of, any_of, all_of, pin_of, code_of};

use base::choice;
use state_fields::bits::{part, power};
use state_fields::codes::field_at;
use state_parts::profile::Profile;
use state_parts::state::State;
use state_settings::numbered::held;
use state_table::{Access, row_at};
use step_flags::between::Seen;

// The sheet's number of a phase.
fn charge_stat(phase: u32) -> u32
    ensures { result ≡ charge_stat phase }
{
    let done = choice::either(phase == 5, 7, 0);
    choice::either(phase <= 4, phase, done)
}

// A status by its number in specs/Rows, as `statuses` has them; the numbers go round.
#[tactic(auto, unfolding(crate::specs::Reads::status_of, crate::specs::Reads::statuses))]
fn status(x: Seen, number: u32) -> u32
    ensures { result ≡ status_of x number }
{
    match number % 11 {
        0 => charge_stat(x.phase),
        1 => choice::bit(x.expired),
        2 => choice::bit(x.thermal),
        3 => choice::bit(x.vindpm),
        4 => choice::bit(x.iindpm),
        5 => choice::bit(x.good),
        6 => x.band,
        7 => choice::bit(x.shutdown),
        8 => choice::bit(x.limit),
        9 => choice::bit(x.packover) * 2,
        _ => choice::bit(x.inputover),
    }
}

// 1 if one of some bits is. The bits are those of a row, which `FitsRow` holds to 31; here they are two numbers.
pub(crate) fn any_of(n: u32, first: u32, count: u32) -> u32
    requires { first + count ≤ 31 }
    ensures { result ≡ any_of first count n }
{
    let part = part(n, first, count);
    choice::bit(part != 0)
}

// 1 if all of them are.
fn all_of(n: u32, first: u32, count: u32) -> u32
    requires { first + count ≤ 31 }
    ensures { result ≡ all_of first count n }
{
    let most = power(count);
    let part = part(n, first, count);
    choice::bit(part == most - 1)
}

// A pin's code, by its number in specs/Rows, as `pin_of` has them.
fn pin(p: Profile, number: u32) -> u32
    ensures { result ≡ pin_of p number }
{
    choice::either(number == 0, p.vchg, p.ichg)
}

// The code of the field at a place of the table.
pub(crate) fn code(s: State, x: Seen, number: u32) -> u32
    requires { x ≡ seen_of s }
    ensures { result ≡ code_of s (field_at number) }
{
    let row = row_at(number);
    let access = row.access;
    match access {
        Access::Reserved => 0,
        Access::Fixed(value) => value,
        Access::Status(which) => status(x, which),
        Access::Flag(first, count) => any_of(s.flags, first, count),
        Access::Stored => field_at(s.registers.words, number),
        Access::Setting(setting, step) => held(s.settings, setting) / step,
        Access::Mask(first, count) => all_of(s.settings.masks, first, count),
        Access::Counted => s.registers.cells,
        Access::Pin(which) => pin(s.profile, which),
        Access::Acts(_) => 0,
    }
}
