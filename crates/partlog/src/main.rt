// Compares the two logs that its arguments name: prints `rest FIRST` or `rest SECOND` and an offset, or `refused`, a number, a record and an offset.
// What matters is in the crates below: main reads, compares and prints.
#![tactic(auto)]

ghost use Rattle.std.specs.Prelude.{◌≤◌, length, IfSome, IfOk};

use log_pairs::answer::Compared;
use std::io;
use std::io::{Print, Write};
use std::rt::{Env, Files};

// Reads a file into a buffer: how many bytes it has, as far as there is room.
fn read_file(rt: &impl Files, name: &[u8], log: &mut [u8]) -> io::Result<usize>
    ensures { IfOk result (λ n. n ≤ length log.new) }
{
    let mut file = reading::open(rt, name)?;
    let (n, read) = reading::read_full(&mut file, log);
    read?;
    Ok(n)
}

// Reads the file that an argument names, 65,537 bytes of one that has more than a log may have; or tells that it can't be read, and why.
fn load(rt: &(impl Env + Files), err: &mut impl Write, i: usize, log: &mut [u8]) -> Option<usize>
    ensures { IfSome result (λ n. n ≤ length log.new) }
{
    let mut name = [0u8; 4096];
    let length = rt.arg(i, &mut name).unwrap_or(0);
    match read_file(rt, &name[..length], log) {
        Ok(n) => Some(n),
        Err(error) => {
            let _ = reading::put(err, b"partlog: cannot read ");
            let _ = reading::fail(err, &name[..length], &error);
            None
        }
    }
}

// Prints what the comparison came to.
fn print_answer(to: &impl Print, compared: Compared) {
    let mut out = [0u8; 64];
    let put = log_pairs::text::answer(&mut out, compared);
    let Ok(n) = put else {
        return;
    };
    if n <= 64 {
        let _ = to.write_all(&out[..n]);
    }
}

fn main(rt: HostRuntime) {
    let mut err = rt.stderr();
    if reading::arg_count(&rt, 4) != 3 {
        let _ = reading::put(&mut err, b"usage: partlog FIRST SECOND\n");
        return;
    }
    let mut first = [0u8; 65537];
    let mut second = [0u8; 65537];
    let Some(n) = load(&rt, &mut err, 1, &mut first) else {
        return;
    };
    let Some(m) = load(&rt, &mut err, 2, &mut second) else {
        return;
    };
    print_answer(&rt, log_pairs::compare_inputs(&first[..n], &second[..m]));
}
