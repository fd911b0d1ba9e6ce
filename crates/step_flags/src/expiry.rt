// Whether the watchdog has reached its period.
ghost use Rattle.std.specs.Prelude.{◌≡◌};
ghost use Rattle.step_flags.specs.Expiry.{expired_of, expires_of};

use state_parts::profile::Profile;
use state_parts::watchdog::Watchdog;

#[tactic(auto, unfolding(crate::specs::Expiry::expired_of))]
pub fn expired(profile: Profile, watchdog: Watchdog) -> bool
    ensures { result ≡ expired_of profile watchdog }
{
    let period = (profile.watchdog as u64) * 1000;
    let count = watchdog.count as u64;
    (profile.watchdog != 0) & (period <= count)
}

// Whether it reaches it between two counts.
#[tactic(auto, unfolding(crate::specs::Expiry::expires_of))]
pub fn expires(profile: Profile, was: Watchdog, is: Watchdog) -> bool
    ensures { result ≡ expires_of profile was is }
{
    let before = expired(profile, was);
    let after = expired(profile, is);
    !before & after
}
