// What the installed programs don't print: `held FILE` prints what the model holds after each record of a stored log once it is powered; two files beside each other, `FILE FILE`, how many bytes are handed back of them.
#![tactic(auto)]

ghost use Rattle.std.specs.Prelude.{◌≤◌};

// Prints pieces one by one, each whatever became of those before it.
macro_rules! say {
    ($to:expr; $($piece:expr),+) => {{
        $(let _ = $to.print($piece);)+
    }};
}

mod files;
mod held;
mod pairs;

use std::io::{Print, Write};
use std::rt::{Env, Files};
use step_event::walking;

// Prints what the model holds after each record of a log of 65,536 bytes at the most: it has no more records.
fn run(to: &impl Print, log: &[u8]) {
    let mut walk = walking::start();
    for _ in 0..65537 {
        let Ok(Some(m)) = walking::next(log, walk) else {
            return;
        };
        held::print(to, m);
        walk = m.walk;
    }
}

// Runs the stored log of a name.
fn run_file(rt: &impl Files, to: &impl Print, err: &mut impl Write, name: &[u8]) {
    let mut input = [0u8; 65536];
    if let Some(n) = files::load(rt, err, name, &mut input) {
        run(to, &input[..n]);
    }
}

// Runs what two arguments name: a mode and a file, or two files.
fn run_words(rt: &(impl Env + Files), to: &impl Print, err: &mut impl Write, i: usize)
    requires { i ≤ 100000 }
{
    let mut word = [0u8; 4096];
    let mut name = [0u8; 4096];
    let letters = rt.arg(i, &mut word).unwrap_or(0);
    let length = rt.arg(i + 1, &mut name).unwrap_or(0);
    let _ = to.write_all(b"== ");
    let _ = to.write_all(&word[..letters]);
    let _ = to.write_all(b" ");
    let _ = to.write_all(&name[..length]);
    let _ = to.write_all(b"\n");
    if word.starts_with(b"h") {
        run_file(rt, to, err, &name[..length]);
    } else {
        pairs::run(rt, to, err, &word[..letters], &name[..length]);
    }
}

fn main(rt: HostRuntime) {
    for i in (1..reading::arg_count(&rt, 100000)).step_by(2) {
        run_words(&rt, &rt.stdout(), &mut rt.stderr(), i);
    }
}
