// Bits of a word, and of the words that hold the map.
ghost use Rattle.std.specs.Prelude.{◌≡◌, ◌+◌, ◌≤◌, ◌<◌, ◌^◌, ◌%◌};
ghost use Rattle.state_fields.specs.Words.{bits_at, put_at, word_at, with_word, bits_in, put_in, no_words};

use base::choice;
use state_parts::words::Words;

// The word of this number; the numbers go round.
fn word(w: Words, number: u32) -> u64
    ensures { result ≡ word_at w number }
{
    match number % 5 {
        0 => w.w0,
        1 => w.w1,
        2 => w.w2,
        3 => w.w3,
        _ => w.w4,
    }
}

// The words with another one at this number.
#[tactic(auto, unfolding(crate::specs::Words::with_word))]
fn with_word(w: Words, number: u32, x: u64) -> Words
    ensures { result ≡ with_word w number x }
{
    let w0 = choice::either(number == 0, x, w.w0);
    let w1 = choice::either(number == 1, x, w.w1);
    let w2 = choice::either(number == 2, x, w.w2);
    let w3 = choice::either(number == 3, x, w.w3);
    let w4 = choice::either(number == 4, x, w.w4);
    Words { w0, w1, w2, w3, w4 }
}

// Two to the power of k; the powers go round.
pub fn power(k: u32) -> u64
    ensures { result ≡ 2 ^ (k % 64) }
{
    1u64 << (k % 64)
}

// Bits of one word. Each of these says how narrow it asks the bits to be: a struct of a place and a width would be made for every call, of numbers that stand in the code.
pub(crate) fn bits(x: u64, at: u32, width: u32) -> u64
    requires { (at < 64) × (width < 64) }
    ensures { result ≡ bits_at at width x }
{
    let most = power(width);
    (x >> at) & (most - 1)
}

// Bits of a number of 32, by a row's numbers; these go round.
pub fn part(n: u32, first: u32, count: u32) -> u64
    ensures { result ≡ bits_at (first % 64) (count % 64) n }
{
    bits(n as u64, first % 64, count % 64)
}

// One word with other bits in it.
fn put_bits(x: u64, at: u32, width: u32, code: u64) -> u64
    requires { (at + width ≤ 64) × (at < 64) × (width < 64) }
    ensures { result ≡ put_at at width code x }
{
    let unit = power(at);
    let old = bits(x, at, width);
    let new = bits(code, 0, width);
    x - old * unit + new * unit
}

// The bits of the map from bit `at` up.
pub(crate) fn get(w: Words, at: u32, width: u32) -> u64
    requires { width < 64 }
    ensures { result ≡ bits_in at width w }
{
    let x = word(w, at / 64);
    bits(x, at % 64, width)
}

// The map with other bits there.
#[tactic(auto, unfolding(crate::specs::Words::put_in))]
pub(crate) fn put(w: Words, at: u32, width: u32, code: u64) -> Words
    requires { (at % 64 + width ≤ 64) × (width < 64) }
    ensures { result ≡ put_in at width code w }
{
    let number = at / 64;
    let x = word(w, number);
    let y = put_bits(x, at % 64, width, code);
    with_word(w, number, y)
}
