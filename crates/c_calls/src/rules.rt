// The number of the rules: what a log means to this library.
ghost use Rattle.c_calls.specs.PublicPromises.{RulesPromise};

// Every landing that changes what a log means gives it another number.
const RULES: u32 = 8;

// The number of the rules by which this library judges a log.
pub fn cheukdane_rules() -> u32
    ensures { RulesPromise result }
{
    RULES
}
