// The phase of a charge.
ghost use Rattle.std.specs.Prelude.{◌≡◌};
ghost use Rattle.state_parts.specs.Numbers.{phase_number};
ghost use Rattle.state_parts.specs.Stages.{in_trickle, in_precharge, in_fast, charging};

#[derive(Clone, Copy, PartialEq, Eq, Debug)]
pub enum Phase {
    Idle,
    Trickle,
    Precharge,
    Fast,
    Taper,
    Done,
    Suspended,
    Fault,
}

// The paper's number of a phase.
impl From<Phase> for u32 {
    ghost from_gives = { λ phase n. n ≡ phase_number phase };

    fn from(phase: Phase) -> u32 {
        match phase {
            Phase::Idle => 0,
            Phase::Trickle => 1,
            Phase::Precharge => 2,
            Phase::Fast => 3,
            Phase::Taper => 4,
            Phase::Done => 5,
            Phase::Suspended => 6,
            Phase::Fault => 7,
        }
    }
}

// Whether a phase is in the trickle stage.
pub fn in_trickle(p: Phase) -> bool
    ensures { result ≡ in_trickle p }
{
    p == Phase::Trickle
}

// Whether a phase is in the precharge stage.
pub fn in_precharge(p: Phase) -> bool
    ensures { result ≡ in_precharge p }
{
    p == Phase::Precharge
}

// Whether a phase is in the stage that fast and taper share.
pub fn in_fast(p: Phase) -> bool
    ensures { result ≡ in_fast p }
{
    matches!(p, Phase::Fast | Phase::Taper)
}

// Whether a phase charges.
pub fn charging(p: Phase) -> bool
    ensures { result ≡ charging p }
{
    matches!(
        p,
        Phase::Trickle | Phase::Precharge | Phase::Fast | Phase::Taper
    )
}
