// A flag register: its byte, by the flags that are held.
ghost use Rattle.std.specs.Prelude.{◌≡◌, true};
ghost use Rattle.state_table.specs.Packed.{FitsRow};
ghost use Rattle.report_registers.specs.Reads.{flag_register, flag_by, flag_byte};

use crate::codes::any_of;
use crate::placed;
use state_parts::profile::Profile;
use state_table::{Access, Row, row_at, rows_below};

// Whether an address is a flag register's.
pub fn flag_register(p: Profile, address: u32) -> bool
    ensures { result ≡ flag_register p address }
{
    (address == 0x20) | (address == 0x21)
}

// The code of a field of flags; 0 for any other.
fn flag_by(row: Row, flags: u32) -> u32
    requires { FitsRow row }
    ensures { result ≡ flag_by row.access flags }
{
    match row.access {
        Access::Flag(first, count) => any_of(flags, first, count),
        _ => 0,
    }
}

// A flag register's byte while these flags are held. Not one function with `value` over a closure: that would have to require what each call of it gives, for a loop of five lines.
pub fn flag_byte(p: Profile, address: u32, flags: u32) -> u8
    ensures { result ≡ flag_byte p address flags }
{
    if 38 < address {
        return 0;
    }
    let mut sum: u64 = 0;
    // by place and not over a slice: its promise would be rows between the same two places, by which the loop's laws (state_table, `Turns`) go, and it saves one line
    for i in rows_below(address)..rows_below(address + 1) {
        let row = row_at(i);
        let here = flag_by(row, flags);
        let part = placed(here, row);
        sum += part as u64;
    }
    (sum % 256) as u8
}
