// The twelve flags. Those that are held are one number, bit 0 to bit 11; an event's edges are told one by one.
ghost use Rattle.std.specs.Prelude.{◌≡◌};
ghost use Rattle.state_parts.specs.Edges.{flags_number, merged, pulse_of};

use base::choice::bit;

// An event's edges: which flags it raises.
#[derive(Clone, Copy)]
pub struct Edges {
    pub good: bool,
    pub lost: bool,
    pub iindpm: bool,
    pub vindpm: bool,
    pub thermal: bool,
    pub expired: bool,
    pub phase: bool,
    pub band: bool,
    pub inputover: bool,
    pub shutdown: bool,
    pub packover: bool,
    pub limit: bool,
}

// The edges' flags, as a number.
impl From<Edges> for u32 {
    ghost from_gives = { λ e n. n ≡ flags_number e };

    #[tactic(auto, unfolding(crate::specs::Edges::flags_number))]
    fn from(e: Edges) -> u32 {
        let bit0 = bit(e.good);
        let bit1 = bit(e.lost);
        let bit2 = bit(e.iindpm);
        let bit3 = bit(e.vindpm);
        let bit4 = bit(e.thermal);
        let bit5 = bit(e.expired);
        let bit6 = bit(e.phase);
        let bit7 = bit(e.band);
        let bit8 = bit(e.inputover);
        let bit9 = bit(e.shutdown);
        let bit10 = bit(e.packover);
        let bit11 = bit(e.limit);
        bit0 + bit1 * 2
            + bit2 * 4
            + bit3 * 8
            + bit4 * 16
            + bit5 * 32
            + bit6 * 64
            + bit7 * 128
            + bit8 * 256
            + bit9 * 512
            + bit10 * 1024
            + bit11 * 2048
    }
}

// The held flags and an event's edges.
#[tactic(auto, unfolding(crate::specs::Edges::merged))]
pub fn merge(held: u32, edges: Edges) -> u32
    ensures { result ≡ merged held edges }
{
    let raised = u32::from(edges);
    held | raised
}

// Whether an event with these edges pulses: the masks don't have them all.
pub fn pulse(edges: Edges, masks: u32) -> bool
    ensures { result ≡ pulse_of edges masks }
{
    let raised = u32::from(edges);
    (raised | masks) != masks
}
