// The lines that the programs print, each written whole at the start of a lent part or not at all.
ghost use Rattle.std.specs.Prelude.{◌≡◌, [], ◌∷◌, ◌≤◌, length};
ghost use Rattle.report_text.specs.Text.{line_count, low32};
ghost use Rattle.report_text.specs.PublicPromises.{LineWidthPromise, LinePromise, HeadedPromise, EndPromise};
ghost use Rattle.report_text.specs.Writing.{over};

use crate::numbers;
use base::refusal::Refusal;

// What a record's line holds: number, kind, answer, phase, current, voltage, input limit, pulse, flags.
pub type LineNumbers = [u32; 9];

// What the last line holds: records read, code, offset.
pub type EndNumbers = [u32; 3];

// A line of no more numbers than a record's has. Said of a slice, here, of its width and behind a word: an array of any length would need the same clause on its length.
fn whole(out: &mut [u8], numbers: &[u32]) -> Result<usize, Refusal>
    requires { length numbers.now ≤ line_count }
    ensures { LinePromise numbers.now out.old result out.new }
{
    let bytes = numbers::width(numbers);
    if out.len() < bytes {
        return Err(Refusal::NoRoom);
    }
    numbers::put(out, numbers);
    Ok(bytes)
}

// How many bytes a record's line has.
pub fn line_width(numbers: LineNumbers) -> usize
    ensures { LineWidthPromise numbers result }
{
    numbers::width(&numbers)
}

// A record's line.
pub fn line(out: &mut [u8], numbers: LineNumbers) -> Result<usize, Refusal>
    ensures { LinePromise numbers out.old result out.new }
{
    whole(out, &numbers)
}

// Writes a word at the start of a part that has the room.
#[tactic(auto, unfolding(crate::specs::Writing::over))]
fn put_word(out: &mut [u8], word: &[u8])
    requires { length word.now ≤ length out.old }
    ensures { out.new ≡ over word.now out.old }
{
    out[..word.len()].copy_from_slice(word);
}

// A word, and a line of no more numbers than a record's has in the rest of the part.
fn headed(out: &mut [u8], word: &[u8], numbers: &[u32]) -> Result<usize, Refusal>
    requires { length numbers.now ≤ line_count }
    ensures { HeadedPromise word.now numbers.now out.old result out.new }
{
    let start = word.len();
    if out.len() < start {
        return Err(Refusal::NoRoom);
    }
    let bytes = whole(&mut out[start..], numbers)?;
    put_word(out, word);
    Ok(bytes + start)
}

// A word and one number. One function for both counts, generic over them, would have to require that no more numbers stand there than in a line.
pub fn one(out: &mut [u8], word: &[u8], number: u32) -> Result<usize, Refusal>
    ensures { HeadedPromise word.now (number ∷ []) out.old result out.new }
{
    let numbers = [number];
    headed(out, word, &numbers)
}

// A word and three numbers.
pub fn three(out: &mut [u8], word: &[u8], numbers: EndNumbers) -> Result<usize, Refusal>
    ensures { HeadedPromise word.now numbers out.old result out.new }
{
    headed(out, word, &numbers)
}

// The last line.
#[tactic(auto, unfolding(crate::specs::Text::end_text))]
pub fn end(out: &mut [u8], numbers: EndNumbers) -> Result<usize, Refusal>
    ensures { EndPromise numbers out.old result out.new }
{
    three(out, b"end ", numbers)
}

// The lowest 32 bits of a number: a line's numbers have no more. By a remainder, since a cast may lose no bits.
pub fn low(n: usize) -> u32
    ensures { result ≡ low32 n }
{
    (n % 4294967296) as u32
}
