// Reading a register: any address of the map, of a model that is on.
#![tactic(auto)]

ghost use Rattle.std.specs.Prelude.{◌≡◌, ◌*◌, ◌%◌, ◌^◌, ◌≤◌};
ghost use Rattle.state_table.specs.Packed.{FitsRow};
ghost use Rattle.report_registers.specs.Reads.{code_of, value_by};
ghost use Rattle.report_registers.specs.PublicPromises.{ReadPromise, ReadRegisterPromise};

use crate::codes::code;
use base::refusal::Refusal;
use state_fields::bits::power;
use state_parts::state::{Model, State};
use state_table::{Row, row_at, rows_below};
use step_flags::between;

pub mod codes;
pub mod flags;

// A code at its field's place.
pub(crate) fn placed(code: u32, row: Row) -> u32
    requires { FitsRow row }
    ensures { (result ≡ code % 2 ^ row.width * 2 ^ row.low) × (result ≤ 0x7FFF8000) }
{
    let unit = power(row.low);
    let most = power(row.width);
    ((code as u64) % most * unit) as u32
}

// A register's value: its fields' codes, each at its place.
fn value(s: State, address: u32) -> u64
    requires { address ≤ 38 }
    ensures { result ≡ value_by s.profile (code_of s) address }
{
    let x = between::seen_in(s);
    let mut sum: u64 = 0;
    for i in rows_below(address)..rows_below(address + 1) {
        let row = row_at(i);
        let here = code(s, x, i);
        let part = placed(here, row);
        sum += part as u64;
    }
    sum
}

// What the host reads at an address; 0xFF outside the map.
pub fn read(s: State, address: u32) -> u8
    ensures { ReadPromise s address result }
{
    if 39 <= address {
        return 0xFF;
    }
    let first = rows_below(address);
    let last = rows_below(address + 1);
    if first == last {
        let whole = value(s, address - 1);
        (whole / 256 % 256) as u8
    } else {
        let whole = value(s, address);
        (whole % 256) as u8
    }
}

// A register of a model: 6 before a power-on. Nothing changes.
#[tactic(auto, unfolding(crate::specs::Reads::read_register_of))]
pub fn read_register(m: Model, address: u32) -> Result<u8, Refusal>
    ensures { ReadRegisterPromise m address result }
{
    match m {
        Model::Off => Err(Refusal::NotPowered),
        Model::On(s) => Ok(read(s, address)),
    }
}
