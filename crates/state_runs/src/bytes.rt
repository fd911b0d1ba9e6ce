// The bytes of a run as values of registers.
ghost use Rattle.std.specs.Prelude.{◌≡◌};
ghost use Rattle.log_raw.specs.Raw.{byte_of};
ghost use Rattle.log_raw.specs.Struct.{raw_of};
ghost use Rattle.state_runs.specs.Bytes.{value_in};

use log_raw::RawBytes;
use log_raw::bytes::byte_at;

// What the register at byte i of a run takes: that byte, and the next one above it.
pub(crate) fn value_in(raw: RawBytes, i: u32) -> u16
    ensures { result ≡ value_in (byte_of (raw_of raw)) i }
{
    let low = byte_at(raw, i as usize);
    let high = byte_at(raw, i as usize + 1);
    u16::from_le_bytes([low, high])
}
