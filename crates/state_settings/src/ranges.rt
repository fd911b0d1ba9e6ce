// The fourteen settings' ranges, by one table.
// A number and no enum of settings: a log may have any, and `known_setting` and `may_hold` say of any whether there is such a setting.
// The profile is the first parameter of every table of the paper, also where no row goes by it yet (CONTRIBUTING.md, House rules).
ghost use Rattle.std.specs.Prelude.{◌≡◌, ◌<◌};
ghost use Rattle.state_settings.specs.Ranges.{known_setting, in_range, range_of, may_hold};

use state_parts::profile::Profile;

// The least and the greatest value, and the step of those between.
#[derive(Clone, Copy)]
pub struct Range {
    pub low: u32,
    pub high: u32,
    pub step: u32,
}

// There is a setting of this number.
pub fn known(p: Profile, number: u32) -> bool
    ensures { result ≡ known_setting p number }
{
    (1 <= number) & (number <= 14)
}

// A range in one line.
macro_rules! range {
    ($low:literal, $high:literal, $step:literal) => {
        Range {
            low: $low,
            high: $high,
            step: $step,
        }
    };
}

// A row for each setting at its number; nothing is in the range at 0.
static RANGES: [Range; 15] = [
    range!(1, 0, 1),
    range!(2400, 33000, 10), // VREG
    range!(40, 3300, 20), // ICHG
    range!(20, 620, 20), // IPRECHG
    range!(20, 620, 20), // ITERM
    range!(40, 3300, 20), // IINDPM
    range!(3000, 28000, 20), // VSYSMIN
    range!(0, 3, 1), // VBAT_LOWV
    range!(0, 3, 1), // VRECHG
    range!(0, 1, 1), // EN_CHG
    range!(0, 1, 1), // EN_TERM
    range!(0, 1, 1), // EN_HIZ
    range!(0, 1, 1), // EN_EXTILIM
    range!(0, 1, 1), // DIS_STAT_PIN
    range!(0, 4095, 1), // masks
];

// The row of a number; the numbers go round.
#[tactic(auto, unfolding(crate::specs::Ranges::range_of, crate::specs::Ranges::ranges))]
fn range_of(p: Profile, number: u32) -> Range
    ensures { result ≡ range_of p number }
{
    RANGES[(number % 15) as usize]
}

// A value of a range that lies on its step.
fn in_range(range: Range, value: u32) -> bool
    requires { 0 < range.step }
    ensures { result ≡ in_range range value }
{
    (range.low <= value) & (value <= range.high) & (value % range.step == 0)
}

// A setting of this number may hold this value.
pub fn may_hold(p: Profile, number: u32, value: u32) -> bool
    ensures { result ≡ may_hold p number value }
{
    let there = known(p, number);
    let range = range_of(p, number);
    let fits = in_range(range, value);
    there & fits
}
