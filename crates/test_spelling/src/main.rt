// Runs the log's spelling over stored bytes: each file at every place, cut off at every length, and its first event written into rooms of every size.
#![tactic(auto)]

ghost use Rattle.std.specs.Prelude.{◌≤◌, length};

use base::refusal::Misread;
use log_event::Event;
use std::io::{Print, Write};
use std::rt::{Env, Files};

// Prints pieces one by one, each whatever became of those before it.
macro_rules! say {
    ($to:expr; $($piece:expr),+) => {{
        $(let _ = $to.print($piece);)+
    }};
}

// What was read: `record KIND to NEXT`, `refused NUMBER at PLACE`, or `end`.
fn tell(to: &impl Print, got: Result<Option<(Event, usize)>, Misread>) {
    match got {
        Ok(Some((e, next))) => say!(to; "record ", u8::from(log_event::kind(e)), " to ", next),
        Ok(None) => say!(to; "end"),
        Err(m) => say!(to; "refused ", u32::from(m.refusal), " at ", m.place),
    }
    say!(to; "\n");
}

fn place(to: &impl Print, log: &[u8], at: usize) {
    say!(to; "place ", at, ": ");
    tell(to, log_record::read(log, at));
}

// At every place, at the end, and past it.
fn places(to: &impl Print, log: &[u8]) {
    for at in 0..=log.len() {
        place(to, log, at);
    }
    place(to, log, 300);
}

// Cut off at every length.
fn cuts(to: &impl Print, log: &[u8]) {
    for length in 0..log.len() {
        say!(to; "cut ", length, ": ");
        tell(to, log_record::read(&log[..length], 0));
    }
}

// How many bytes of a buffer that was full of 0xEE are others now.
fn changed(buffer: [u8; 64]) -> usize {
    buffer.iter().filter(|byte| **byte != 0xEE).count()
}

// Written into a lent part: what the writer answers, and what reads back.
fn written(to: &impl Print, part: &mut [u8], e: Event) {
    match log_record::write(part, e) {
        Ok(n) => say!(to; "wrote ", n),
        Err(r) => say!(to; "refused ", u32::from(r)),
    }
    say!(to; ", ");
    tell(to, log_record::read(part, 0));
}

// Written into so much room of a larger buffer, and how many bytes of that changed.
fn room(to: &impl Print, e: Event, size: usize)
    requires { size ≤ 64 }
{
    let mut buffer = [0xEEu8; 64];
    say!(to; "room ", size, ": ");
    written(to, &mut buffer[..size], e);
    say!(to; "changed ", changed(buffer), "\n");
}

// Its first event, written into rooms from none to one byte more than it has.
fn rooms(to: &impl Print, log: &[u8]) {
    let Ok(Some((e, _))) = log_record::read(log, 0) else {
        return;
    };
    for size in 0..log_record::width(e) + 2 {
        room(to, e, size);
    }
}

fn run_file(rt: &(impl Env + Files), to: &impl Print, err: &mut impl Write, i: usize) {
    let mut path = [0u8; 4096];
    let length = rt.arg(i, &mut path).unwrap_or(0);
    let _ = to.write_all(b"== ");
    let _ = to.write_all(&path[..length]);
    let _ = to.write_all(b"\n");
    match reading::open(rt, &path[..length]) {
        Ok(mut file) => {
            let mut input = [0u8; 256];
            let (n, _) = reading::read_full(&mut file, &mut input);
            places(to, &input[..n]);
            cuts(to, &input[..n]);
            rooms(to, &input[..n]);
        }
        Err(error) => {
            let _ = reading::fail(err, &path[..length], &error);
        }
    }
}

fn main(rt: HostRuntime) {
    for i in 1..reading::arg_count(&rt, usize::MAX) {
        run_file(&rt, &rt.stdout(), &mut rt.stderr(), i);
    }
}
