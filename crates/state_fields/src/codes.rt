// A field's code in the words, by its place in the table.
ghost use Rattle.std.specs.Prelude.{◌≡◌};
ghost use Rattle.state_table.specs.Packed.{field_at};
ghost use Rattle.state_fields.specs.Held.{field_in};

use crate::bits::get;
use state_parts::words::Words;
use state_table::row_at;

pub fn field_at(w: Words, number: u32) -> u32
    ensures { result ≡ field_in (field_at number) w }
{
    let row = row_at(number);
    get(w, row.address * 8 + row.low, row.width) as u32
}
