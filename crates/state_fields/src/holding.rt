// What the words hold: what they may, what they start with, and what a register reset and the watchdog's expiry leave.
// The profile is the first parameter of every table of the paper, also where no row goes by it yet (CONTRIBUTING.md, House rules).
ghost use Rattle.std.specs.Prelude.{◌≡◌};
ghost use Rattle.state_fields.specs.Held.{start_words, restored_by, words_ok, without_overrides};

use crate::bits::{get, put};
use state_parts::profile::Profile;
use state_parts::words::Words;

// No bit is set but those of stored fields: each gap between them is empty.
pub fn words_ok(p: Profile, w: Words) -> bool
    ensures { result ≡ words_ok p w }
{
    let w0 = w.w0;
    let w1 = w.w1;
    let w2 = w.w2;
    let w3 = w.w3;
    let w4 = w.w4;
    (w0 / 1 % 0x100000000 == 0)
        & (w0 / 0x100000000 % 0x100000000 == 0)
        & (w1 / 1 % 0x10 == 0)
        & (w1 / 0x8000 % 0x20 == 0)
        & (w1 / 0x10000000 % 0x100 == 0)
        & (w1 / 0x800000000000 % 0x20000 == 0)
        & (w2 / 2 % 0x80 == 0)
        & (w2 / 0x40000 % 2 == 0)
        & (w2 / 0x10000000 % 4 == 0)
        & (w2 / 0x2000000000 % 2 == 0)
        & (w2 / 0x40000000000 % 2 == 0)
        & (w2 / 0x100000000000 % 0x10 == 0)
        & (w3 / 0x100000 % 2 == 0)
        & (w3 / 0x1000000 % 0x40 == 0)
        & (w3 / 0x100000000 % 8 == 0)
        & (w3 / 0x1000000000 % 0x10000000 == 0)
        & (w4 / 1 % 0x40000 == 0)
        & (w4 / 0x80000 % 0x20 == 0)
        & (w4 / 0x2000000 % 2 == 0)
        & (w4 / 0x8000000 % 2 == 0)
        & (w4 / 0x20000000 % 0x8000000 == 0)
        & (w4 / 0x100000000000000 % 0x100 == 0)
}

// The stored fields at their resets.
#[tactic(auto, unfolding(state_table::specs::Rows::fields, state_table::specs::Rows::fields_of, crate::specs::Held::gathered, crate::specs::Words::put_at, crate::specs::Words::put_in, crate::specs::Held::start_words, crate::specs::Words::with_word))]
pub fn start_words(p: Profile) -> Words
    ensures { result ≡ start_words p }
{
    Words {
        w0: 0,
        w1: 0xFA00A500910,
        w2: 0xAAE1000880801D01,
        w3: 0x40D795,
        w4: 0,
    }
}

// The stored fields after a register reset: VINDPM, STOP_WD_CHG and EN_BYPASS_LL_EXIT stand.
pub fn restored(p: Profile, w: Words) -> Words
    ensures { result ≡ restored_by p w }
{
    let start = start_words(p);
    let vindpm = get(w, 0x44, 11);
    let stop = get(w, 0x91, 1);
    let exit = get(w, 0xCF, 1);
    let first = put(start, 0x44, 11, vindpm);
    let second = put(first, 0x91, 1, stop);
    put(second, 0xCF, 1, exit)
}

// The words with all three overrides cleared.
#[tactic(auto, unfolding(crate::specs::Held::without_overrides))]
pub fn without_overrides(w: Words) -> Words
    ensures { result ≡ without_overrides w }
{
    let first = put(w, 0xDE, 1, 0);
    let second = put(first, 0xDF, 1, 0);
    put(second, 0xE3, 1, 0)
}
