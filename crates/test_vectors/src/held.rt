// What the model holds after a record: its number, the registers 0x00 to 0x26, the fourteen settings, the band, STAT and the flags that the record handed back.
use report_state::answer::Stat;
use report_state::stat;
use settle_bands::joined;
use state_parts::band::Band;
use state_parts::state::{Model, State};
use state_settings::numbered;
use std::io::Print;
use step_event::walking::Met;

fn registers(to: &impl Print, s: State) {
    for address in 0..0x27 {
        say!(to; report_registers::read(s, address), " ");
    }
}

fn settings(to: &impl Print, s: State) {
    for number in 1..15 {
        say!(to; numbered::held(s.settings, number), " ");
    }
}

// The words of the stored outputs, each with the space behind it, which no other program prints: so no `Display` of the model's enums.
fn band(b: Band) -> &'static str {
    match b {
        Band::Normal => "normal ",
        Band::Cold => "cold ",
        Band::Cool => "cool ",
        Band::Warm => "warm ",
        Band::Hot => "hot ",
        Band::Mixed => "mixed ",
    }
}

fn pin(s: Stat) -> &'static str {
    match s {
        Stat::Low => "low ",
        Stat::Blinking => "blinking ",
        Stat::High => "high ",
    }
}

fn state(to: &impl Print, s: State) {
    say!(to; ": ");
    registers(to, s);
    say!(to; ": ");
    settings(to, s);
    say!(to; ": ", band(joined::pack_band(s.bands)), pin(stat::stat(s)));
}

pub(crate) fn print(to: &impl Print, m: Met) {
    if let Model::On(s) = m.walk.model {
        say!(to; m.line.number, " ");
        state(to, s);
        say!(to; m.walk.came.handed, "\n");
    }
}
