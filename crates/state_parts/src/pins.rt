// The pin codes' values.
ghost use Rattle.std.specs.Prelude.{◌≡◌};
ghost use Rattle.state_parts.specs.Pins.{vchg_of, ichg_of};

use crate::profile::Profile;
use base::entry;
use base::units::CellMv;

// What the VCHG pin allows a cell to be charged to; 0 for a fault.
pub fn vchg(p: Profile) -> CellMv
    ensures { result ≡ vchg_of p }
{
    CellMv(entry::of(p.vchg, [0, 3500, 3600, 4000, 4100, 4200, 4300, 4350]))
}

// The ICHG pin's current in mA; 0 for a fault.
pub fn ichg(p: Profile) -> u32
    ensures { result ≡ ichg_of p }
{
    entry::of(p.ichg, [0, 100, 500, 1000, 1500, 2000, 2500, 3300])
}
