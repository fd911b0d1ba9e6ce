// A power-on by its resistors, as the one by codes that it acts as.
ghost use Rattle.std.specs.Prelude.{◌≡◌};
ghost use Rattle.step_turns.specs.Coded.{coded_of};

use log_event::spelled::{SpelledProfile, SpelledResistors};

// Kind 1 with the codes that the resistors stand for. No `From`: it reads the table of resistors, so it is a rule and no change of form.
pub fn coded(r: SpelledResistors) -> SpelledProfile
    ensures { result ≡ coded_of r }
{
    SpelledProfile {
        cell: step_pins::code_of(r.cell),
        vchg: step_pins::code_of(r.vchg),
        ichg: step_pins::code_of(r.ichg),
        ohms: r.ohms,
        stamp: r.stamp,
        ceiling: r.ceiling,
        trickle: r.trickle,
        precharge: r.precharge,
        fast: r.fast,
        watchdog: r.watchdog,
    }
}
