// The call that writes an event's record.
ghost use Rattle.c_calls.specs.PublicPromises.{WritePromise};
ghost use Rattle.c_calls.specs.Landing.{left};
ghost use Rattle.c_calls.specs.Writing.{counted, write_call_of};
ghost use Rattle.std.specs.Prelude.{◌≡◌};

use crate::answer::{Put, told};
use base::refusal::Refusal;

// Writes an event's record at the start of `out`: how many bytes it has.
#[tactic(auto, using(crate::proofs::Writes::counted_whole), unfolding(crate::specs::Writing::write_call_of))]
fn written(kind: u32, bytes: &[u8], out: &mut [u8]) -> Result<u32, Refusal>
    ensures { left (counted result) out.new ≡ write_call_of kind bytes.now out.old }
{
    let e = c_event::event_of(kind, bytes)?;
    log_record::write(out, e)?;
    Ok(log_record::width(e) as u32)
}

// Writes an event's record at the start of `out`.
pub fn cheukdane_write(kind: u32, bytes: &[u8], out: &mut [u8]) -> Put
    ensures { WritePromise kind bytes.now out.old result out.new }
{
    let (number, count) = told(written(kind, bytes, out));
    Put {
        number,
        count,
        place: 0,
    }
}
