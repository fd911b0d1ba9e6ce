// Compares two stored logs, and prints how long the part is that is handed back.
use crate::files;
use log_pairs::rests;
use std::io::{Print, Write};
use std::rt::Files;

// Compares the two files of these names.
pub(crate) fn run(
    rt: &impl Files,
    to: &impl Print,
    err: &mut impl Write,
    name: &[u8],
    other: &[u8],
) {
    let mut first = [0u8; 65537];
    let mut second = [0u8; 65537];
    let Some(n) = files::load(rt, err, name, &mut first) else {
        return;
    };
    let Some(m) = files::load(rt, err, other, &mut second) else {
        return;
    };
    let bytes = rests::rest(&first[..n], &second[..m]).len();
    say!(to; "bytes ", bytes, "\n");
}
