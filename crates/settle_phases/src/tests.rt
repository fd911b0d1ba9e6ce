// Everything that settling tests, as one record of Booleans.
#[derive(Clone, Copy)]
pub struct Tests {
    pub permitted: bool,
    // thermal shutdown, battery over or a stage limit reached
    pub fault: bool,
    pub suspended: bool,
    // the charge was done before
    pub done: bool,
    // VBAT is below the recharge point
    pub recharge: bool,
    pub short: bool,
    pub low: bool,
    pub taper: bool,
    // an observation asks for the settling
    pub observed: bool,
    // phase 4 was held before
    pub tapered: bool,
    // EN_TERM, IBAT < ITERM, no regulation
    pub ending: bool,
}
