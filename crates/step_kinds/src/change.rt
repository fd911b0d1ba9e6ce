// What an event writes before it settles.
// How an accepted event ends: as any other; as an observation, on which a charge may be done; by handing back the flags; by handing back a flag register's byte; as a power-on.
#[derive(Clone, Copy)]
pub enum Way {
    Plain,
    Observes,
    Takes,
    // the register's address
    Reads(u32),
    Powers,
}
