// The STAT pin.
ghost use Rattle.std.specs.Prelude.{◌≡◌};
ghost use Rattle.report_state.specs.Stats.{stat_in};
ghost use Rattle.report_state.specs.PublicPromises.{StatPromise};

use crate::answer::Stat;
use base::choice;
use state_parts::phase::Phase;
use state_parts::state::State;

fn stat_in(phase: Phase) -> Stat
    ensures { result ≡ stat_in phase }
{
    match phase {
        Phase::Trickle | Phase::Precharge | Phase::Fast | Phase::Taper => Stat::Low,
        Phase::Suspended | Phase::Fault => Stat::Blinking,
        Phase::Idle | Phase::Done => Stat::High,
    }
}

// What the STAT pin shows.
#[tactic(auto, unfolding(crate::specs::Stats::stat_of))]
pub fn stat(state: State) -> Stat
    ensures { StatPromise state result }
{
    let settings = state.settings;
    let disabled = settings.disstat;
    let phase = state.phase;
    let shown = stat_in(phase);
    choice::either(disabled, Stat::High, shown)
}
