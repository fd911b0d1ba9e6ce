// An event given outside a log: its kind, and the kind's numbers as words.
#![tactic(auto)]

ghost use Rattle.c_event.specs.PublicPromises.{EventOfPromise};

use base::refusal::Refusal;
use log_event::fields::MOST;
use log_event::{Event, fields, kinds};

// The event of a kind and its words.
#[tactic(auto, using(log_event::proofs::Table::no_row), unfolding(crate::specs::Given::given_of))]
pub fn event_of(kind: u32, bytes: &[u8]) -> Result<Event, Refusal>
    ensures { EventOfPromise kind bytes.now result }
{
    let byte = u8::try_from(kind).map_err(|_| Refusal::UnknownKind)?;
    let of = kinds::kind_for(byte).ok_or(Refusal::UnknownKind)?;
    if bytes.len() != kinds::count(of) * 4 {
        return Err(Refusal::OutOfRange);
    }
    let mut all = [0; MOST];
    c_words::read(bytes, &mut all);
    Ok(fields::made(of, all))
}
