// The stored fields of a register that is written.
// The profile is the first parameter of every table of the paper, also where no row goes by it yet (CONTRIBUTING.md, House rules).
ghost use Rattle.std.specs.Prelude.{◌≡◌, ◌+◌, ◌*◌};
ghost use Rattle.base.specs.Pick.{pick};
ghost use Rattle.state_table.specs.Rows.{is_stored};
ghost use Rattle.state_table.specs.Packed.{FitsRow};
ghost use Rattle.state_fields.specs.Words.{bits_at, put_in};
ghost use Rattle.state_fields.specs.Held.{taken_by};

use crate::bits::{bits, put};
use state_parts::profile::Profile;
use state_parts::words::Words;
use state_table::{Access, Row, row_at, rows_below};

// A field that is only stored.
pub fn is_stored(access: Access) -> bool
    ensures { result ≡ is_stored access }
{
    matches!(access, Access::Stored)
}

// The words with a field's code of the register's value, if the field is stored.
fn take(w: Words, row: Row, value: u32) -> Words
    requires { FitsRow row }
    ensures { result ≡ pick (is_stored row.access) (put_in (row.address * 8 + row.low) row.width (bits_at row.low row.width value) w) w }
{
    if is_stored(row.access) {
        let code = bits(value as u64, row.low, row.width);
        put(w, row.address * 8 + row.low, row.width, code)
    } else {
        w
    }
}

// The words after a register is written.
pub fn taken(p: Profile, w: Words, address: u32, value: u32) -> Words
    ensures { result ≡ taken_by p address value w }
{
    if 38 < address {
        return w;
    }
    let mut u = w;
    // by place and not over a slice: its promise would be rows between the same two places, by which the loop's laws (state_table, `Turns`) go, and it saves one line
    for i in rows_below(address)..rows_below(address + 1) {
        let row = row_at(i);
        u = take(u, row, value);
    }
    u
}
