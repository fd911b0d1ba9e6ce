// Prints what the log on standard input comes to: reads it, then writes out page after page. All that matters is in `step_text::print`.
#![tactic(auto)]

ghost use Rattle.std.specs.Prelude.{◌≡◌, true, length};
ghost use Rattle.step_text.specs.Prints.{next_text, print_told, printed};

use base::refusal::Refusal;
use std::io;
use step_event::walking;
use step_event::walking::Walk;
use step_text::answer::Printed;

// Prints the next page, for which there is always room.
fn print_page(to: &impl io::Print, log: &[u8], from: Walk) -> Result<Printed, Refusal>
    ensures { print_told result ≡ printed (length (next_text log.now from).text) (next_text log.now from).walk (next_text log.now from).over }
{
    let mut out = [0u8; 2048];
    let page = step_text::print(&mut out, log, from)?;
    let _ = to.write_all(&out[..page.bytes]);
    Ok(page)
}

// Prints page after page, and tells whether the last was among them: 4,097 are the whole of any input (`RunPrints`, crate `step_text`).
fn run(to: &impl io::Print, log: &[u8]) -> bool
    ensures { result ≡ true }
{
    let mut walk = walking::start();
    for _pages in 0usize..4097 {
        let Ok(page) = print_page(to, log, walk) else {
            return false;
        };
        if page.over {
            return true;
        }
        walk = page.walk;
    }
    false
}

// Says that a read of standard input failed, and why.
fn read_failed(to: &mut impl io::Write, error: &io::Error) {
    let _ = reading::put(to, b"runlog: cannot read ");
    let _ = reading::fail(to, b"standard input", error);
}

fn main(rt: HostRuntime) {
    let mut input = [0u8; 65537];
    let (n, read) = reading::read_full(&mut rt.stdin(), &mut input);
    if let Err(error) = read {
        read_failed(&mut rt.stderr(), &error);
        return;
    }
    run(&rt, &input[..n]);
}
