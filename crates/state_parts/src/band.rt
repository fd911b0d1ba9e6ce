// The temperature bands: that of one thermistor's value, and the pack's.
ghost use Rattle.std.specs.Prelude.{◌≡◌};
ghost use Rattle.state_parts.specs.Numbers.{ts_band_number, band_number};

// What one TS value is in, in the order of the bands' numbers.
#[derive(Clone, Copy, PartialEq, Eq, Debug)]
pub enum TsBand {
    Normal,
    Cold,
    Hot,
    Cool,
    Warm,
}

// What each of a pack's two thermistors is in.
#[derive(Clone, Copy, PartialEq, Eq, Debug)]
pub struct Bands {
    pub first: TsBand,
    pub second: TsBand,
}

// What the two thermistors of a pack come to; one cool beside one warm is a band of its own.
#[derive(Clone, Copy, PartialEq, Eq, Debug)]
pub enum Band {
    Normal,
    Cold,
    Hot,
    Cool,
    Warm,
    Mixed,
}

// The number of one value's band.
impl From<TsBand> for u32 {
    ghost from_gives = { λ b n. n ≡ ts_band_number b };

    fn from(b: TsBand) -> u32 {
        match b {
            TsBand::Normal => 0,
            TsBand::Cold => 1,
            TsBand::Hot => 2,
            TsBand::Cool => 3,
            TsBand::Warm => 4,
        }
    }
}

// The number of the pack's band, which TS_STAT shows.
impl From<Band> for u32 {
    ghost from_gives = { λ b n. n ≡ band_number b };

    fn from(b: Band) -> u32 {
        match b {
            Band::Normal => 0,
            Band::Cold => 1,
            Band::Hot => 2,
            Band::Cool => 3,
            Band::Warm => 4,
            Band::Mixed => 7,
        }
    }
}
