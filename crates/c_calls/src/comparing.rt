// The call that reads two logs side by side.
ghost use Rattle.c_calls.specs.PublicPromises.{ComparePromise};

use crate::answer::ComparedLogs;
use log_pairs::answer::Compared;

// Reads two logs side by side.
#[tactic(auto, unfolding(crate::specs::Comparing::compare_call_of))]
pub fn cheukdane_compare(first: &[u8], second: &[u8]) -> ComparedLogs
    ensures { ComparePromise first.now second.now result }
{
    let (number, log, count, place) = match log_pairs::compare(first, second) {
        Compared::First(place) => (0, 1, 0, place),
        Compared::Second(place) => (0, 2, 0, place),
        Compared::Refused(refusal, count, place) => (u32::from(refusal), 0, count, place),
    };
    ComparedLogs {
        number,
        log,
        count,
        place,
    }
}
