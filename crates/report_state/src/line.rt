// What a record's line shows.
ghost use Rattle.std.specs.Prelude.{◌≡◌};
ghost use Rattle.report_state.specs.Lines.{line_of};

use crate::report;
use state_parts::state::Model;

// The nine numbers of a record's line, as the paper has them printed (`line_of`): so the answer, the phase and the pulse are numbers here.
#[derive(Clone, Copy)]
pub struct Line {
    pub number: u32,
    pub kind: u32,
    pub answer: u32,
    pub phase: u32,
    pub current: u32,
    pub voltage: u32,
    pub limit: u32,
    pub pulse: u32,
    pub flags: u32,
}

// What a record's line shows of the model after it.
#[tactic(auto, unfolding(crate::specs::Lines::line_of))]
pub fn line_of(number: u32, kind: u32, answer: u32, pulse: u32, m: Model) -> Line
    ensures { result ≡ line_of number kind answer pulse m }
{
    match m {
        Model::Off => Line {
            number,
            kind,
            answer,
            phase: 0,
            current: 0,
            voltage: 0,
            limit: 0,
            pulse,
            flags: 0,
        },
        Model::On(s) => {
            let shown = report::report(s);
            let current = shown.current;
            let limit = shown.limit;
            let at = shown.phase;
            let pack = shown.voltage;
            let phase = u32::from(at);
            let voltage = u32::from(pack);
            Line {
                number,
                kind,
                answer,
                phase,
                current,
                voltage,
                limit,
                pulse,
                flags: s.flags,
            }
        }
    }
}
