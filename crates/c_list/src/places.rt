// Where each part of a state starts in the list of its numbers, and how many numbers there are. `Places` says the same.
pub(crate) const SETTINGS: usize = 11;

pub(crate) const REGISTERS: usize = SETTINGS + 14;

pub(crate) const LATCHES: usize = REGISTERS + 11;

pub(crate) const CYCLE: usize = LATCHES + 5;

pub(crate) const WATCHDOG: usize = CYCLE + 4;

pub(crate) const SAMPLE: usize = WATCHDOG + 1;

pub(crate) const PHASE: usize = SAMPLE + 7;

pub(crate) const BANDS: usize = PHASE + 1;

pub(crate) const FLAGS: usize = BANDS + 2;

pub const COUNT: usize = FLAGS + 1;
