// What each part of the state may hold.
ghost use Rattle.std.specs.Prelude.{◌≡◌};
ghost use Rattle.state_valid.specs.Holds.{profile_ok, sample_ok, registers_ok, cycle_ok, watchdog_ok, state_ok};
ghost use Rattle.state_valid.specs.Holds.{stage_ok};

use state_fields::holding::words_ok;
use state_fields::named;
use state_parts::cycle::Cycle;
use state_parts::phase::Phase;
use state_parts::profile::Profile;
use state_parts::registers::Registers;
use state_parts::sample::Sample;
use state_parts::state::State;
use state_parts::watchdog::Watchdog;
use state_parts::{cycle, phase};
use state_settings::kept::settings_ok;

// A power-on's numbers in their ranges. What a log's kinds may say of them is tested by `step_turns::ranges`, a definition of its own: a later kind (02, R-9) may widen the one and not the other.
#[tactic(auto, unfolding(crate::specs::Holds::profile_ok))]
pub fn profile_ok(p: Profile) -> bool
    ensures { result ≡ profile_ok p }
{
    (p.cell <= 7)
        & (p.vchg <= 7)
        & (p.ichg <= 7)
        & (p.ohms <= 33000)
        & (4350 <= p.ceiling)
        & (p.ceiling <= 4714)
        & (p.trickle <= 172800)
        & (p.precharge <= 172800)
        & (p.fast <= 172800)
        & (p.watchdog <= 172800)
        & (1 <= p.edition)
        & (p.edition <= 2)
}

// An observation's numbers in their ranges.
#[tactic(auto, unfolding(crate::specs::Holds::sample_ok))]
pub fn sample_ok(x: Sample) -> bool
    ensures { result ≡ sample_ok x }
{
    (x.input <= 45000)
        & (x.pack <= 45000)
        & (-10000 <= x.ibat)
        & (x.ibat <= 5000)
        & (x.ts <= 100000)
        & (x.bits <= 63)
        & (x.secondts <= 100000)
}

// The registers hold what they may.
#[tactic(auto, unfolding(crate::specs::Holds::registers_ok))]
pub fn registers_ok(p: Profile, g: Registers) -> bool
    ensures { result ≡ registers_ok p g }
{
    let count = g.cells <= 7;
    let code = named::fsw(g);
    let stored = words_ok(p, g.words);
    stored & named::has_frequency(p, code) & count
}

// A stage's time by its limit, and by whether the stage is held.
fn stage_ok(limit: u32, stage: bool, time: u32) -> bool
    ensures { result ≡ stage_ok limit stage time }
{
    let top = cycle::limit_units(limit);
    let used = time as u64;
    ((limit == 0) & (time == 0)) | ((1 <= limit) & (used < top + 7200000) & (!stage | (used < top)))
}

// The stages' times hold what they may.
#[tactic(auto, unfolding(crate::specs::Holds::cycle_ok))]
pub fn cycle_ok(y: Cycle, p: Profile, phase: Phase) -> bool
    ensures { result ≡ cycle_ok y p phase }
{
    let first = phase::in_trickle(phase);
    let second = phase::in_precharge(phase);
    let last = phase::in_fast(phase);
    let trickle = stage_ok(p.trickle, first, y.trickle);
    let precharge = stage_ok(p.precharge, second, y.precharge);
    let fast = stage_ok(p.fast, last, y.fast);
    trickle & precharge & fast
}

// The watchdog's count is at most its period.
#[tactic(auto, unfolding(crate::specs::Holds::watchdog_ok))]
pub fn watchdog_ok(w: Watchdog, p: Profile) -> bool
    ensures { result ≡ watchdog_ok w p }
{
    let most = (p.watchdog as u64) * 1000;
    (w.count as u64) <= most
}

// The state holds what it may.
#[tactic(auto, unfolding(crate::specs::Holds::state_ok))]
pub fn state_ok(s: State) -> bool
    ensures { result ≡ state_ok s }
{
    let phase = s.phase;
    let p = profile_ok(s.profile);
    let t = settings_ok(s.profile, s.settings);
    let g = registers_ok(s.profile, s.registers);
    let y = cycle_ok(s.cycle, s.profile, phase);
    let w = watchdog_ok(s.watchdog, s.profile);
    let x = sample_ok(s.sample);
    let f = s.flags <= 4095;
    p & t & g & y & w & x & f
}
