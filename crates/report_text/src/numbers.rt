// A line of numbers, one space apart, in a part that has the room.
ghost use Rattle.std.specs.Prelude.{◌≡◌, [], ◌∷◌, ◌++◌, ◌+◌, ◌≤◌, ◌<◌, length};
ghost use Rattle.base.specs.Pick.{pick};
ghost use Rattle.report_text.specs.Decimal.{decimal};
ghost use Rattle.report_text.specs.Text.{line_text, line_count, most_line};
ghost use Rattle.report_text.specs.Writing.{over};

use crate::decimal;

// The byte after a number: a newline after the last, else a space.
fn after(last: bool) -> u8
    ensures { result ≡ pick last 10 32 }
{
    if last { b'\n' } else { b' ' }
}

// Writes a number's text and the byte after it: how many bytes they took.
fn put_one(out: &mut [u8], n: u32, next: u8) -> usize
    requires { length (decimal n) < length out.old }
    ensures { (result ≡ length (decimal n) + 1) × (out.new ≡ over (decimal n ++ (next ∷ [])) out.old) }
{
    let digits = decimal::put(out, n);
    out[digits] = next;
    digits + 1
}

// How many bytes the line has.
pub(crate) fn width(numbers: &[u32]) -> usize
    requires { length numbers.now ≤ line_count }
    ensures { (result ≡ length (line_text numbers.now)) × (result ≤ most_line) }
{
    numbers.iter().map(|n| decimal::width(*n) + 1).sum()
}

// Writes the line: each number is lent the rest of the part from its place on.
pub(crate) fn put(out: &mut [u8], numbers: &[u32])
    requires { length (line_text numbers.now) ≤ length out.old }
    ensures { out.new ≡ over (line_text numbers.now) out.old }
{
    let mut at: usize = 0;
    for (i, n) in numbers.iter().enumerate() {
        at += put_one(&mut out[at..], *n, after(i + 1 == numbers.len()));
    }
}
