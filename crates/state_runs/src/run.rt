// A run of written bytes on a state.
// The profile is the first parameter of every table of the paper, also where no row goes by it yet (CONTRIBUTING.md, House rules).
ghost use Rattle.std.specs.Prelude.{◌≡◌, ◌&&◌, leb, ltb, ◌+◌, ◌-◌, ◌≤◌};
ghost use Rattle.log_raw.specs.Raw.{byte_of};
ghost use Rattle.log_raw.specs.Struct.{raw_of};
ghost use Rattle.state_runs.specs.Bytes.{value_in};
ghost use Rattle.state_runs.specs.Runs.{in_middle, illegal_frequency, bad_run, kept_run, kept_of, resets, serves};
ghost use Rattle.state_runs.specs.PublicPromises.{RunPromise};

use crate::bytes::value_in;
use crate::registers::{Kept, bad_register, register_taken};
use base::refusal::Refusal;
use log_raw::RawBytes;
use log_raw::bytes::has_spelling;
use state_fields::named;
use state_parts::profile::Profile;
use state_parts::registers::Registers;
use state_parts::state::State;
use state_table::rows_below;

// Whether an address is the middle of a register.
#[tactic(auto, unfolding(state_table::specs::Rows::fields_of))]
fn in_middle(p: Profile, address: u32) -> bool
    ensures { result ≡ in_middle p address }
{
    address < 39 && rows_below(address) == rows_below(address + 1)
}

// A run's two numbers are two parameters, here and below: the definitions `resets`, `serves` and `write_run_of`, which theorems speak of, take them so.
// Whether a run from an address on writes the register at another.
fn writes(first: u32, count: u32, address: u32) -> bool
    ensures { result ≡ (leb first address && ltb address (first + count)) }
{
    let end = (first as u64) + (count as u64);
    (first <= address) & ((address as u64) < end)
}

// What it takes there.
fn value_at(raw: RawBytes, first: u32, address: u32) -> u16
    ensures { result ≡ value_in (byte_of (raw_of raw)) (address - first) }
{
    value_in(raw, address.saturating_sub(first))
}

// Whether FSW is written and has no frequency.
fn bad_frequency(p: Profile, first: u32, raw: RawBytes) -> bool
    ensures { result ≡ illegal_frequency (byte_of (raw_of raw)) first raw.length p }
{
    let there = writes(first, raw.length, 0x16);
    let code = u32::from(value_at(raw, first, 0x16)) / 1 % 8;
    there & !named::has_frequency(p, code)
}

// Whether REG_RST is written 1.
#[tactic(auto, unfolding(crate::specs::Runs::resets))]
pub fn resets(first: u32, raw: RawBytes) -> bool
    ensures { result ≡ resets first (raw_of raw) }
{
    let there = writes(first, raw.length, 0x10);
    let value = value_at(raw, first, 0x10);
    there & (value / 128 % 2 == 1)
}

// Whether WD_RST is written 1.
#[tactic(auto, unfolding(crate::specs::Runs::serves))]
pub fn serves(first: u32, raw: RawBytes) -> bool
    ensures { result ≡ serves first (raw_of raw) }
{
    let there = writes(first, raw.length, 0x12);
    let value = value_at(raw, first, 0x12);
    there & (value / 4 % 2 == 1)
}

// Whether some setting can't hold what is written.
#[tactic(auto, unfolding(crate::specs::Runs::bad_run))]
fn bad_run(p: Profile, first: u32, raw: RawBytes) -> bool
    requires { first + raw.length ≤ 39 }
    ensures { result ≡ bad_run (byte_of (raw_of raw)) first raw.length p }
{
    let mut bad = false;
    for i in 0..raw.length {
        let value = value_in(raw, i);
        bad = bad | bad_register(p, first + i, u32::from(value));
    }
    bad
}

// What the registers leave, one after the other.
#[tactic(auto, unfolding(crate::specs::Runs::kept_run))]
fn kept_run(p: Profile, before: Registers, first: u32, raw: RawBytes, k: Kept) -> Kept
    requires { first + raw.length ≤ 39 }
    ensures { result ≡ kept_run (byte_of (raw_of raw)) first raw.length p before k }
{
    let mut u = k;
    for i in 0..raw.length {
        let value = value_in(raw, i);
        u = register_taken(p, before, first + i, u32::from(value), u);
    }
    u
}

// What runs change of a state, as it stands. No `From`: it is one step of a run.
fn kept_of(s: State) -> Kept
    ensures { result ≡ kept_of s }
{
    let Registers { words, cells } = s.registers;
    Kept {
        settings: s.settings,
        words,
        cells,
    }
}

// The host writes a run of bytes from an address on. What it changes is handed back, and not the state: a copy of that is large.
#[tactic(auto, unfolding(crate::specs::Runs::write_run_of, crate::specs::Runs::written_run))]
pub fn run(s: State, first: u32, raw: RawBytes) -> Result<Kept, Refusal>
    ensures { RunPromise s first raw result }
{
    if !has_spelling(raw) {
        return Err(Refusal::OutOfRange);
    }
    let end = (first as u64) + (raw.length as u64);
    if 39 < end {
        return Err(Refusal::UnknownAddress);
    }
    let p = s.profile;
    if in_middle(p, first) | in_middle(p, first + raw.length) {
        return Err(Refusal::HalfRegister);
    }
    if bad_frequency(p, first, raw) {
        return Err(Refusal::BadFrequency);
    }
    if bad_run(p, first, raw) {
        return Err(Refusal::BadValue);
    }
    let before = s.registers;
    let held = kept_of(s);
    Ok(kept_run(p, before, first, raw, held))
}
