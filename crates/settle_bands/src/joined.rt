// The pack's band: what the bands of its two thermistors come to.
ghost use Rattle.std.specs.Prelude.{◌≡◌};
ghost use Rattle.settle_bands.specs.Joined.{first_joined, pack_band};

use state_parts::band::{Band, Bands, TsBand};

// The first that holds, in the judged order.
fn first_joined(cold: bool, hot: bool, mixed: bool, cool: bool, warm: bool) -> Band
    ensures { result ≡ first_joined cold hot mixed cool warm }
{
    if cold {
        Band::Cold
    } else if hot {
        Band::Hot
    } else if mixed {
        Band::Mixed
    } else if cool {
        Band::Cool
    } else if warm {
        Band::Warm
    } else {
        Band::Normal
    }
}

// The pack's band, by what either of its thermistors is in.
#[tactic(auto, unfolding(crate::specs::Joined::joined_of, crate::specs::Joined::either))]
pub fn pack_band(bands: Bands) -> Band
    ensures { result ≡ pack_band bands }
{
    let first = bands.first;
    let second = bands.second;
    let cold = (first == TsBand::Cold) | (second == TsBand::Cold);
    let hot = (first == TsBand::Hot) | (second == TsBand::Hot);
    let cool = (first == TsBand::Cool) | (second == TsBand::Cool);
    let warm = (first == TsBand::Warm) | (second == TsBand::Warm);
    first_joined(cold, hot, cool & warm, cool, warm)
}
