// Words: 32-bit numbers in bytes, lowest byte first. Read out of lent bytes, and written at the start of a lent part.
#![tactic(auto)]

pub mod same;

ghost use Rattle.std.specs.Prelude.{◌≡◌, ◌+◌, ◌*◌, ◌^◌, ◌≤◌, ◌<◌, length, get_or};
ghost use Rattle.c_words.specs.Words.{word_at};
ghost use Rattle.c_words.specs.PublicPromises.{ReadPromise, WritePromise};

use base::refusal::Refusal;

// The byte at a place; 0 past the end.
fn byte(bytes: &[u8], at: usize) -> u8
    ensures { result ≡ get_or bytes.now at 0 }
{
    bytes.get(at).copied().unwrap_or(0)
}

// The word at a place that has all four bytes: they are read with no test.
#[tactic(auto, unfolding(crate::specs::Words::word_at))]
fn whole(bytes: &[u8], at: usize) -> u32
    requires { at + 4 ≤ length bytes.now }
    ensures { result ≡ word_at bytes.now at }
{
    u32::from_le_bytes([bytes[at], bytes[at + 1], bytes[at + 2], bytes[at + 3]])
}

// The word at a place.
#[tactic(auto, unfolding(crate::specs::Words::word_at))]
fn word(bytes: &[u8], at: usize) -> u32
    requires { at + 4 < 2 ^ 64 }
    ensures { result ≡ word_at bytes.now at }
{
    let first = byte(bytes, at);
    let second = byte(bytes, at + 1);
    let third = byte(bytes, at + 2);
    let last = byte(bytes, at + 3);
    u32::from_le_bytes([first, second, third, last])
}

// Reads words that are all there, with no test for each. Its loop stands again below: one loop that takes the reader as a closure has a longer contract, and a longer proof, than both.
fn read_whole(bytes: &[u8], all: &mut [u32])
    requires { length all.old * 4 ≤ length bytes.now }
    ensures { ReadPromise bytes.now all.old all.new }
{
    for (i, n) in all.iter_mut().enumerate() {
        *n = whole(bytes, i * 4);
    }
}

// Reads words that may run past the bytes' end. By index, as above: `chunks_exact(4)` would leave out a last word that is not all there, and is slower where none is (see `same`).
fn read_past(bytes: &[u8], all: &mut [u32])
    ensures { ReadPromise bytes.now all.old all.new }
{
    for (i, n) in all.iter_mut().enumerate() {
        *n = word(bytes, i * 4);
    }
}

// Reads as many words as `all` has room for, from the bytes' start on.
pub fn read(bytes: &[u8], all: &mut [u32])
    ensures { ReadPromise bytes.now all.old all.new }
{
    if all.len() <= bytes.len() / 4 {
        read_whole(bytes, all)
    } else {
        read_past(bytes, all)
    }
}

// Writes words at the start of `out`, or nothing if they do not fit.
pub fn write(out: &mut [u8], all: &[u32]) -> Result<usize, Refusal>
    ensures { WritePromise all.now out.old result out.new }
{
    if out.len() / 4 < all.len() {
        return Err(Refusal::NoRoom);
    }
    // by index, as in `same`, where `chunks_exact` is slower; over `chunks_exact_mut` a turn tells of chunks, and what is promised is the whole of `out`
    for (i, n) in all.iter().enumerate() {
        let at = i * 4;
        out[at..at + 4].copy_from_slice(&n.to_le_bytes());
    }
    Ok(all.len() * 4)
}
