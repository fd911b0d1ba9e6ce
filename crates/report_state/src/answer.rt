// What the model shows: its report, and the STAT pin.
ghost use Rattle.std.specs.Prelude.{◌≡◌};
ghost use Rattle.report_state.specs.Stats.{stat_number};

use base::units::PackMv;
use state_parts::phase::Phase;

#[derive(Clone, Copy, PartialEq, Eq, Debug)]
pub struct Report {
    pub phase: Phase,
    // the charge current and the input limit, in mA
    pub current: u32,
    pub voltage: PackMv,
    pub limit: u32,
}

#[derive(Clone, Copy, PartialEq, Eq, Debug)]
pub enum Stat {
    Low,
    Blinking,
    High,
}

// The number of what the pin shows.
impl From<Stat> for u32 {
    ghost from_gives = { λ stat n. n ≡ stat_number stat };

    fn from(stat: Stat) -> u32 {
        match stat {
            Stat::Low => 0,
            Stat::Blinking => 1,
            Stat::High => 2,
        }
    }
}
