// What one register of a run takes.
// The profile is the first parameter of every table of the paper, also where no row goes by it yet (CONTRIBUTING.md, House rules).
ghost use Rattle.std.specs.Prelude.{◌≡◌, ◌+◌, ◌-◌, ◌/◌, ◌%◌, ◌^◌, ◌≤◌, eqb};
ghost use Rattle.base.specs.Pick.{pick};
ghost use Rattle.state_table.specs.Packed.{FitsRow};
ghost use Rattle.state_runs.specs.Registers.{masked, setting_by, settings_taken, bad_by, bad_register, register_taken};

use base::choice;
use state_fields::bits::{part, power};
use state_fields::taking::taken;
use state_parts::profile::Profile;
use state_parts::registers::Registers;
use state_parts::settings::Settings;
use state_parts::words::Words;
use state_registers::writing;
use state_settings::numbered::store;
use state_settings::ranges::may_hold;
use state_table::{Access, Row, row_at, rows_below};

// What runs change of a state.
#[derive(Clone, Copy)]
pub struct Kept {
    pub settings: Settings,
    pub words: Words,
    pub cells: u32,
}

// A field's code of its register's value.
fn digit(row: Row, value: u32) -> u16
    requires { FitsRow row }
    ensures { result ≡ value / 2 ^ row.low % 2 ^ row.width }
{
    part(value, row.low, row.width) as u16
}

// So many bits, all 1, or all 0 where the code is 0.
fn ones(count: u32, code: u32) -> u64
    requires { count ≤ 31 }
    ensures { result ≡ pick (eqb code 0) 0 (2 ^ count - 1) }
{
    let most = power(count);
    if code == 0 { 0 } else { most - 1 }
}

// The masks with some bits all 1, or all 0 where the code is 0. The bits are those of a row, which `FitsRow` holds to 31; here they are two numbers.
fn mask_bits(masks: u32, first: u32, count: u32, code: u32) -> u32
    requires { first + count ≤ 31 }
    ensures { result ≡ masked first count code masks }
{
    let unit = power(first);
    let n = masks as u64;
    let old = part(masks, first, count);
    let new = ones(count, code);
    (n - old * unit + new * unit) as u32
}

// The settings with what a field's code says.
fn set_by(row: Row, value: u32, t: Settings) -> Settings
    requires { FitsRow row }
    ensures { result ≡ setting_by row.access (value / 2 ^ row.low % 2 ^ row.width) t }
{
    let code = u32::from(digit(row, value));
    match row.access {
        Access::Setting(number, step) => store(t, number, code * step),
        Access::Mask(first, count) => store(t, 14, mask_bits(t.masks, first, count, code)),
        _ => t,
    }
}

// The settings after a register is written.
pub fn settings_taken(p: Profile, t: Settings, address: u32, value: u32) -> Settings
    ensures { result ≡ settings_taken p address value t }
{
    if 38 < address {
        return t;
    }
    let mut u = t;
    // by place and not over a slice: its promise would be rows between the same two places, by which the loop's laws (state_table, `Turns`) go, and it saves one line
    for i in rows_below(address)..rows_below(address + 1) {
        let row = row_at(i);
        u = set_by(row, value, u);
    }
    u
}

// Whether a field's setting can't hold what its code says.
fn bad_by(p: Profile, row: Row, value: u32) -> bool
    requires { FitsRow row }
    ensures { result ≡ bad_by p row.access (value / 2 ^ row.low % 2 ^ row.width) }
{
    let code = u32::from(digit(row, value));
    match row.access {
        Access::Setting(number, step) => !may_hold(p, number, code * step),
        _ => false,
    }
}

// Whether some setting of a register can't hold what is written.
pub fn bad_register(p: Profile, address: u32, value: u32) -> bool
    ensures { result ≡ bad_register p address value }
{
    if 38 < address {
        return false;
    }
    let mut bad = false;
    // by place and not over a slice: its promise would be rows between the same two places, by which the loop's laws (state_table, `Turns`) go, and it saves one line
    for i in rows_below(address)..rows_below(address + 1) {
        let row = row_at(i);
        bad = bad | bad_by(p, row, value);
    }
    bad
}

// What a register that takes a value leaves; `before` is what stood before the run.
#[tactic(auto, unfolding(crate::specs::Registers::register_taken))]
pub fn register_taken(p: Profile, before: Registers, address: u32, value: u32, k: Kept) -> Kept
    ensures { result ≡ register_taken p before address value k }
{
    let count = writing::count_taken(before, address, value);
    let given = settings_taken(p, k.settings, address, value);
    let settings = writing::recount(count, p, value / 1 % 8, given);
    let words = taken(p, k.words, address, value);
    let cells = choice::either(count, value / 1 % 8, k.cells);
    Kept {
        settings,
        words,
        cells,
    }
}
