// The text of a page of a walk: its records' lines, one after the other, written whole into a lent part or not at all.
#![tactic(auto)]

ghost use Rattle.std.specs.Prelude.{◌≡◌, ◌≤◌, length, take};
ghost use Rattle.report_pages.specs.Text.{numbers_of, lines_text, page_count, most_page};
ghost use Rattle.report_pages.specs.PublicPromises.{PageWidthPromise, PagePromise};

use base::refusal::Refusal;
use report_state::line::Line;
use report_text::text;
use report_text::text::LineNumbers;

// How many lines a page has room for.
pub const PAGE: usize = 16;

// A page's lines, with the count of those that are meant beside them: of a slice of any length a text would have no most bytes.
pub type PageLines = [Line; PAGE];

// The nine numbers of a line, in their order. No `From`: the array is this crate's way to lend them, and not what a line is.
#[tactic(auto, unfolding(crate::specs::Text::numbers_of))]
fn numbers_of(line: Line) -> LineNumbers
    ensures { result ≡ numbers_of line }
{
    [
        line.number,
        line.kind,
        line.answer,
        line.phase,
        line.current,
        line.voltage,
        line.limit,
        line.pulse,
        line.flags,
    ]
}

// How many bytes lines have.
fn width(lines: &[Line]) -> usize
    requires { length lines.now ≤ page_count }
    ensures { (result ≡ length (lines_text lines.now)) × (result ≤ most_page) }
{
    lines
        .iter()
        .map(|line| text::line_width(numbers_of(*line)))
        .sum()
}

// The first `most` lines of a page.
fn first(lines: &PageLines, most: usize) -> &[Line]
    ensures { (result.now ≡ take most lines.now) × (length result.now ≤ page_count) }
{
    &lines[..most.min(PAGE)]
}

// How many bytes the first `most` lines of a page have.
#[tactic(auto, unfolding(crate::specs::Text::page_text))]
pub fn page_width(lines: PageLines, most: usize) -> usize
    ensures { PageWidthPromise most lines result }
{
    width(first(&lines, most))
}

// Writes the first `most` lines of a page.
pub fn page(out: &mut [u8], lines: PageLines, most: usize) -> Result<usize, Refusal>
    ensures { PagePromise most lines out.old result out.new }
{
    let lines = first(&lines, most);
    if out.len() < width(lines) {
        return Err(Refusal::NoRoom);
    }
    let mut at: usize = 0;
    for line in lines {
        let bytes = text::line(&mut out[at..], numbers_of(*line))?;
        at += bytes;
    }
    Ok(at)
}
