// A state's numbers, one list, in the order of an image.
ghost use Rattle.std.specs.Prelude.{◌≡◌};
ghost use Rattle.c_list.specs.Numbers.{low_half, high_half, state_numbers};

use crate::places::COUNT;
use base::choice::bit;
use log_number::ibat;
use state_parts::state::State;

// A state's numbers.
pub type Numbers = [u32; COUNT];

// The two halves of a word, by a remainder and a quotient: a cast may lose no bits.
fn low(x: u64) -> u32
    ensures { result ≡ low_half x }
{
    (x % 0x100000000) as u32
}

fn high(x: u64) -> u32
    ensures { result ≡ high_half x }
{
    (x / 0x100000000) as u32
}

// A state's numbers.
#[tactic(auto, unfolding(state_settings::specs::Numbered::setting_numbers, crate::specs::Numbers::state_numbers))]
pub fn numbers_of(s: State) -> Numbers
    ensures { result ≡ state_numbers s }
{
    let p = s.profile;
    let t = s.settings;
    let g = s.registers;
    let w = g.words;
    let l = s.latches;
    let c = s.cycle;
    let x = s.sample;
    [
        // a power-on's, in kind 11's order
        p.cell,
        p.vchg,
        p.ichg,
        p.ohms,
        p.stamp,
        p.ceiling,
        p.trickle,
        p.precharge,
        p.fast,
        p.watchdog,
        p.edition,
        // the settings, 1 to 14
        u32::from(t.vreg),
        t.ichg,
        t.iprechg,
        t.iterm,
        t.iindpm,
        u32::from(t.vsysmin),
        t.lowv,
        t.vrechg,
        bit(t.enchg),
        bit(t.enterm),
        bit(t.enhiz),
        bit(t.enextilim),
        bit(t.disstat),
        t.masks,
        // the stored fields, and CELL_PIN
        low(w.w0),
        high(w.w0),
        low(w.w1),
        high(w.w1),
        low(w.w2),
        high(w.w2),
        low(w.w3),
        high(w.w3),
        low(w.w4),
        high(w.w4),
        g.cells,
        // the latches
        bit(l.inputok),
        bit(l.inputover),
        bit(l.short),
        bit(l.low),
        bit(l.packover),
        // the times of a charge, and whether it is done
        c.trickle,
        c.precharge,
        c.fast,
        bit(c.done),
        // the watchdog
        s.watchdog.count,
        // the last observation's, in kind 10's order
        x.stamp,
        x.input,
        x.pack,
        ibat::logged(x.ibat),
        x.ts,
        x.secondts,
        x.bits,
        // the phase, the bands and the held flags
        u32::from(s.phase),
        u32::from(s.bands.first),
        u32::from(s.bands.second),
        s.flags,
    ]
}
