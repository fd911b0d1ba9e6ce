// The calls that look at the model of an image.
ghost use Rattle.std.specs.Prelude.{◌≡◌};
ghost use Rattle.c_calls.specs.Landing.{left, answered, number_in};
ghost use Rattle.c_calls.specs.Showing.{report_numbers, report_call_of, byte_in, register_of};
ghost use Rattle.c_calls.specs.PublicPromises.{ReportPromise, RegisterPromise};

use crate::answer::{Answer, Byte, answered, told};
use base::refusal::Refusal;
use report_state::{report, stat};
use state_parts::state::{Model, State};

// What a report has.
type Report = [u32; 6];

#[tactic(auto, unfolding(crate::specs::Showing::report_numbers))]
fn report_numbers(s: State) -> Report
    ensures { result ≡ report_numbers s }
{
    let told = report::report(s);
    let phase = u32::from(told.phase);
    let current = told.current;
    let voltage = u32::from(told.voltage);
    let limit = told.limit;
    let flags = s.flags;
    let stat = u32::from(stat::stat(s));
    [phase, current, voltage, limit, flags, stat]
}

// The report, the flags and STAT of the model as it stands: 0, or its refusal. Not by `ready` and `?`: handed on by them, the model lies on the stack once more (small stack).
#[tactic(auto, unfolding(crate::specs::Showing::report_call_of, crate::specs::Landing::ready_of))]
fn reported(image: &[u8], report: &mut [u8]) -> Result<u32, Refusal>
    ensures { left (answered (number_in result)) report.new ≡ report_call_of image.now report.old }
{
    let Some(model) = c_image::load(image) else {
        return Err(Refusal::OutOfRange);
    };
    if report.len() < 24 {
        return Err(Refusal::NoRoom);
    }
    let Model::On(s) = model else {
        return Err(Refusal::NotPowered);
    };
    // It has room, so it isn't refused.
    let _ = c_words::write(report, &report_numbers(s));
    Ok(0)
}

// The report, the flags and STAT of the model as it stands.
pub fn cheukdane_report(image: &[u8], report: &mut [u8]) -> Answer
    ensures { ReportPromise image.now report.old result report.new }
{
    answered(reported(image, report))
}

// A register's byte, or its refusal.
#[tactic(auto, unfolding(crate::specs::Showing::register_of))]
fn register(image: &[u8], address: u32) -> Result<u32, Refusal>
    ensures { byte_in result ≡ register_of image.now address }
{
    let model = c_image::load(image).ok_or(Refusal::OutOfRange)?;
    let byte = report_registers::read_register(model, address)?;
    Ok(u32::from(byte))
}

// A register's byte.
pub fn cheukdane_register(image: &[u8], address: u32) -> Byte
    ensures { RegisterPromise image.now address result }
{
    let (number, byte) = told(register(image, address));
    Byte {
        number,
        byte,
        place: 0,
    }
}
