// A program's input: how many arguments there are, the files that they name, an input read into a buffer, and the line that says why one can't be read.
#![tactic(auto)]

ghost use Rattle.std.specs.Prelude.{◌≡◌, ℕ, ◌-◌, ◌<◌, ◌≤◌, ◌==◌, List, ◌++◌, length, take, position, codes, pos, Some, OnOk, MatchOption, MatchResult, IsUtf8};
ghost use Rattle.std.specs.Io.KnownBytes.{Appends, Consumes, IsAtEnd};
ghost use Rattle.std.specs.IoError.{raw_os_error};

use std::env::FillError;
use std::fs::File;
use std::io;
use std::io::{Cursor, ErrorKind, Read, Write};
use std::rt::{Env, Files};

// What the system answers if a name's bytes are no text: EILSEQ. A path is text here.
const NOT_TEXT: i32 = 84;

// How many arguments there are, the program's name among them; `most` for more than that. What the system answers isn't known, so all that is promised is the bound.
pub fn arg_count<R: Env>(rt: &R, most: usize) -> usize
    ensures { result ≤ most }
{
    for i in 0..most {
        if let Err(FillError::NotPresent) = rt.arg(i, &mut []) {
            return i;
        }
    }
    most
}

// Opens the file of a name.
pub fn open<R: Files>(rt: &R, name: &[u8]) -> io::Result<R::File>
    ensures { ¬ (IsUtf8 name.now) → MatchResult result (λ _. ⊥) (λ e. raw_os_error e ≡ Some (pos 84)) }
{
    match std::str::from_utf8(name) {
        Ok(path) => File::open(rt, path),
        Err(_) => Err(io::Error::from_raw_os_error(NOT_TEXT)),
    }
}

// Reads until the buffer is full, the input ends or a read fails: how many bytes it put at the buffer's start, and the read's error. A read that fails has put bytes too, so the count stands beside the error. The loop goes on by what each read put, so it is no `for`.
pub fn read_full<R: Read>(from: &mut R, buffer: &mut [u8]) -> (usize, io::Result<()>)
    ensures room { result.0 ≤ length buffer.new }
    ensures bytes { Consumes (R.remaining from.old) (R.remaining from.new) (take result.0 buffer.new) }
    ensures whole { OnOk result.1 (result.0 < length buffer.new → IsAtEnd (R.remaining from.new)) }
{
    let mut done = 0;
    while done < buffer.len() {
        match from.read(&mut buffer[done..]) {
            Ok(0) => break,
            Ok(n) => done += n,
            Err(error) => return (done, Err(error)),
        }
    }
    (done, Ok(()))
}

// Where the first bracket of a text is.
fn bracket(text: &[u8]) -> Option<usize>
    ensures { result ≡ position (λ byte. byte == 40) text.now }
{
    text.iter().position(|byte| *byte == b'(')
}

// The system's own words of an error's text: " (os error 21)" is left out.
fn words(text: &[u8]) -> &[u8]
    ensures { MatchOption (position (λ byte. byte == 40) text.now) (result.now ≡ text.now) (λ i. result.now ≡ take (i - 1) text.now) }
{
    match bracket(text) {
        Some(i) => &text[..i.saturating_sub(1)],
        None => text,
    }
}

// How many tries a text has beyond one for each of its bytes: so often may a signal interrupt its writes.
const INTERRUPTIONS: usize = 64;

// Writes a text. A write that a signal interrupts is made again, but not for ever: that is why it isn't the library's `write_all`.
pub fn put<W: Write>(to: &mut W, text: &[u8]) -> io::Result<()>
    ensures { OnOk result (Appends (W.contents to.old) (W.contents to.new) text.now) }
{
    let mut rest = text;
    for _ in 0..text.len().saturating_add(INTERRUPTIONS) {
        if rest.is_empty() {
            return Ok(());
        }
        match to.write(rest) {
            Ok(0) => return Err(io::Error::from(ErrorKind::WriteZero)),
            Ok(n) => rest = &rest[n..],
            Err(error) => {
                if error.kind() != ErrorKind::Interrupted {
                    return Err(error);
                }
            }
        }
    }
    if rest.is_empty() {
        Ok(())
    } else {
        Err(io::Error::from(ErrorKind::Interrupted))
    }
}

// Writes a line: what failed, a colon and the error's words. Each piece is tried, also behind one that failed.
pub fn fail<W: Write>(to: &mut W, what: &[u8], error: &io::Error) -> io::Result<()>
    ensures { OnOk result ((words : List ℕ) × Appends (W.contents to.old) (W.contents to.new) (what.now ++ codes ": " ++ words ++ codes "\n")) }
{
    let mut text = Cursor::new([0u8; 128]);
    let _ = write!(text, "{error}");
    let n = text.position();
    let bytes = text.into_inner();
    let end = n.min(128) as usize;
    let told = put(to, what);
    let parted = put(to, b": ");
    let explained = put(to, words(&bytes[..end]));
    let ended = put(to, b"\n");
    told?;
    parted?;
    explained?;
    ended
}
