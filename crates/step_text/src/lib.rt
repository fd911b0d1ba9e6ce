// What `runlog` prints of a log, page by page, each written whole into a lent buffer or not at all: all that the program does between its read and its writes.
#![tactic(auto)]

pub mod answer;

ghost use Rattle.std.specs.Prelude.{◌≡◌, ◌++◌, ◌≤◌, length};
ghost use Rattle.base.specs.Writing.{put, written, written_told};
ghost use Rattle.report_text.specs.Text.{end_text};
ghost use Rattle.report_pages.specs.Text.{most_page, page_text};
ghost use Rattle.step_event.specs.Pages.{stop_told};
ghost use Rattle.step_text.specs.Prints.{last_text, is_over, most_text, print_told, told_by};
ghost use Rattle.step_text.specs.PublicPromises.{PrintPromise};

use crate::answer::Printed;
use base::refusal::Refusal;
use report_pages::PageLines;
use report_text::text;
use report_text::text::EndNumbers;
use step_event::paging;
use step_event::paging::{Page, Stop};
use step_event::walking::Walk;

// A page's first lines and the last line. The last line is written first, behind the page's place, so that a refusal changes no byte.
fn ending(
    out: &mut [u8],
    lines: PageLines,
    count: usize,
    numbers: EndNumbers,
) -> Result<usize, Refusal>
    ensures { let text = page_text count lines ++ end_text numbers in (written_told result ≡ written text out.old) × (out.new ≡ put text out.old) × (length (page_text count lines) ≤ most_page) }
{
    let start = report_pages::page_width(lines, count);
    if out.len() < start {
        return Err(Refusal::NoRoom);
    }
    let bytes = text::end(&mut out[start..], numbers)?;
    // it has the room, as was measured above
    let _ = report_pages::page(out, lines, count);
    Ok(bytes + start)
}

// A page's lines, and the last line if the log ends behind them. The page by value: behind a reference its count's range isn't known.
fn page(out: &mut [u8], p: Page) -> Result<usize, Refusal>
    ensures { let text = page_text p.count p.lines ++ last_text p.walk.number p.walk.place (stop_told p.stop) in (written_told result ≡ written text out.old) × (out.new ≡ put text out.old) × (length text ≤ most_text) }
{
    let number = p.walk.number;
    let place = p.walk.place;
    let count = p.count;
    let lines = p.lines;
    match p.stop {
        Stop::Full => report_pages::page(out, lines, count),
        Stop::End => ending(out, lines, count, [number, 0, text::low(place)]),
        Stop::Unreadable(r, start) => {
            let numbers = [number, u32::from(r), text::low(start)];
            ending(out, lines, count, numbers)
        }
    }
}

fn is_over(stop: Stop) -> bool
    ensures { result ≡ is_over (stop_told stop) }
{
    match stop {
        Stop::Full => false,
        Stop::End | Stop::Unreadable(_, _) => true,
    }
}

fn told(put: Result<usize, Refusal>, walk: Walk, over: bool) -> Result<Printed, Refusal>
    ensures { print_told result ≡ told_by (written_told put) walk over }
{
    put.map(|bytes| Printed { bytes, walk, over })
}

// The next page of what is printed of a log, from a walk on.
#[tactic(auto, using(crate::proofs::Longs::long_text, crate::proofs::Longs::long_walk, crate::proofs::Longs::long_over, crate::proofs::Longs::long_short))]
pub fn print(out: &mut [u8], log: &[u8], from: Walk) -> Result<Printed, Refusal>
    ensures { PrintPromise log.now from out.old result out.new }
{
    if 65536 < log.len() {
        return told(
            text::end(out, [0, u32::from(Refusal::InputTooLong), 0]),
            from,
            true,
        );
    }
    let p = paging::turn(log, from);
    let put = page(out, p);
    told(put, p.walk, is_over(p.stop))
}
