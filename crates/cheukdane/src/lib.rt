// The library for C: the calls of include/cheukdane.h. Each is the call of its name in `c_calls`, with that call's contract.
#![tactic(auto)]

ghost use Rattle.c_calls.specs.PublicPromises.{RulesPromise, OffPromise, PlayPromise, EventPromise, ReplayPromise, ReportPromise, RegisterPromise, WritePromise, ComparePromise};

use c_calls::answer::{Answer, Byte, ComparedLogs, Played, Put, Replayed};
use c_calls::{comparing, playing, replaying, rules, showing, writing};

// The number of the rules by which this library judges a log.
#[unsafe(no_mangle)]
pub extern "C" fn cheukdane_rules() -> u32
    ensures { RulesPromise result }
{
    rules::cheukdane_rules()
}

// Makes the image of a model before its power-on.
#[unsafe(no_mangle)]
pub extern "C" fn cheukdane_off(image: &mut [u8]) -> Answer
    ensures { OffPromise image.old result image.new }
{
    playing::cheukdane_off(image)
}

// Plays the record at a place of a log.
#[unsafe(no_mangle)]
pub extern "C" fn cheukdane_play(
    image: &mut [u8],
    log: &[u8],
    place: usize,
    shown: &mut [u8],
) -> Played
    ensures { PlayPromise image.old log.now place shown.old result image.new shown.new }
{
    playing::cheukdane_play(image, log, place, shown)
}

// One event outside a log.
#[unsafe(no_mangle)]
pub extern "C" fn cheukdane_event(
    image: &mut [u8],
    kind: u32,
    bytes: &[u8],
    shown: &mut [u8],
) -> Answer
    ensures { EventPromise image.old kind bytes.now shown.old result image.new shown.new }
{
    playing::cheukdane_event(image, kind, bytes, shown)
}

// Plays every record of a log from a place on.
#[unsafe(no_mangle)]
pub extern "C" fn cheukdane_replay(image: &mut [u8], log: &[u8], place: usize) -> Replayed
    ensures { ReplayPromise image.old log.now place result image.new }
{
    replaying::cheukdane_replay(image, log, place)
}

// The report, the flags and STAT of the model as it stands.
#[unsafe(no_mangle)]
pub extern "C" fn cheukdane_report(image: &[u8], report: &mut [u8]) -> Answer
    ensures { ReportPromise image.now report.old result report.new }
{
    showing::cheukdane_report(image, report)
}

// A register's byte.
#[unsafe(no_mangle)]
pub extern "C" fn cheukdane_register(image: &[u8], address: u32) -> Byte
    ensures { RegisterPromise image.now address result }
{
    showing::cheukdane_register(image, address)
}

// Writes an event's record at the start of `out`.
#[unsafe(no_mangle)]
pub extern "C" fn cheukdane_write(kind: u32, bytes: &[u8], out: &mut [u8]) -> Put
    ensures { WritePromise kind bytes.now out.old result out.new }
{
    writing::cheukdane_write(kind, bytes, out)
}

// Reads two logs side by side.
#[unsafe(no_mangle)]
pub extern "C" fn cheukdane_compare(first: &[u8], second: &[u8]) -> ComparedLogs
    ensures { ComparePromise first.now second.now result }
{
    comparing::cheukdane_compare(first, second)
}
