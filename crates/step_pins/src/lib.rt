// The code that a resistor at one of the pins CELL, VCHG and ICHG stands for.
#![tactic(auto)]

ghost use Rattle.std.specs.Prelude.{◌≡◌, position};
ghost use Rattle.step_pins.specs.Codes.{resistors, matches, code_of};

// The resistors of codes 1 to 7, in ohms. A static lies in the program alone: a constant array would be laid on the stack.
static RESISTORS: [u32; 7] = [4640, 6040, 8250, 10500, 13700, 16900, 27400];

// Whether a resistor is within 2% of the table's.
fn is_near(nominal: u32, ohms: u32) -> bool
    ensures { result ≡ matches nominal ohms }
{
    let far = ohms.abs_diff(nominal);
    100 * (far as u64) <= 2 * (nominal as u64)
}

// The place of the first resistor that is within 2%.
fn place(ohms: u32) -> Option<usize>
    ensures { result ≡ position (λ nominal. matches nominal ohms) resistors }
{
    RESISTORS.iter().position(|nominal| is_near(*nominal, ohms))
}

// The lowest code whose resistor is within 2%; 0, a pin fault, if none is.
#[tactic(auto, using(crate::proofs::Places::found, crate::proofs::Places::missed), unfolding(crate::specs::Codes::code_of))]
pub fn code_of(ohms: u32) -> u32
    ensures { result ≡ code_of ohms }
{
    match place(ohms) {
        Some(i) => i as u32 + 1,
        None => 0,
    }
}
