// The fields that rules read, each by its name.
// A function for each: rules read a field by its name (CONTRIBUTING.md, House rules), and one for all would take the word, shift and width that the names stand for.
ghost use Rattle.std.specs.Prelude.{◌≡◌};
ghost use Rattle.state_fields.specs.Held.{field_of, is_set};
ghost use Rattle.state_table.specs.Rows.{fsw, ts_th1, ts_th2, ts_th3, ts_th5, en_ts, en_jeita, jeita_isetc, jeita_iseth, jeita_vset};
ghost use Rattle.state_table.specs.Rows.{vchg_override, cell_override, ichg_override, frequency_ok};

use state_parts::profile::Profile;
use state_parts::registers::Registers;

pub fn fsw(registers: Registers) -> u32
    ensures { result ≡ field_of fsw registers }
{
    (registers.words.w2 / 0x1000000000000 % 8) as u32
}

// Whether a code of FSW has a frequency.
pub fn has_frequency(profile: Profile, code: u32) -> bool
    ensures { result ≡ frequency_ok profile code }
{
    (1 <= code) & (code <= 6)
}

pub fn ts_th1(registers: Registers) -> u32
    ensures { result ≡ field_of ts_th1 registers }
{
    (registers.words.w3 / 1 % 4) as u32
}

pub fn ts_th2(registers: Registers) -> u32
    ensures { result ≡ field_of ts_th2 registers }
{
    (registers.words.w3 / 4 % 4) as u32
}

pub fn ts_th3(registers: Registers) -> u32
    ensures { result ≡ field_of ts_th3 registers }
{
    (registers.words.w3 / 0x10 % 4) as u32
}

pub fn ts_th5(registers: Registers) -> u32
    ensures { result ≡ field_of ts_th5 registers }
{
    (registers.words.w3 / 0x40 % 4) as u32
}

pub fn en_ts(registers: Registers) -> u32
    ensures { result ≡ field_of en_ts registers }
{
    (registers.words.w3 / 0x100 % 2) as u32
}

pub fn en_jeita(registers: Registers) -> u32
    ensures { result ≡ field_of en_jeita registers }
{
    (registers.words.w3 / 0x200 % 2) as u32
}

pub fn jeita_isetc(registers: Registers) -> u32
    ensures { result ≡ field_of jeita_isetc registers }
{
    (registers.words.w3 / 0x400 % 4) as u32
}

pub fn jeita_iseth(registers: Registers) -> u32
    ensures { result ≡ field_of jeita_iseth registers }
{
    (registers.words.w3 / 0x1000 % 2) as u32
}

pub fn jeita_vset(registers: Registers) -> u32
    ensures { result ≡ field_of jeita_vset registers }
{
    (registers.words.w3 / 0x2000 % 4) as u32
}

pub fn vchg_override(registers: Registers) -> bool
    ensures { result ≡ is_set vchg_override registers }
{
    registers.words.w3 / 0x80000000 % 2 == 1
}

pub fn cell_override(registers: Registers) -> bool
    ensures { result ≡ is_set cell_override registers }
{
    registers.words.w3 / 0x40000000 % 2 == 1
}

pub fn ichg_override(registers: Registers) -> bool
    ensures { result ≡ is_set ichg_override registers }
{
    registers.words.w3 / 0x800000000 % 2 == 1
}
