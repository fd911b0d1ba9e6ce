// The table of register fields as the code has it: where each stands, and what stands in it.
#![tactic(auto)]

ghost use Rattle.std.specs.Prelude.{◌≡◌};
ghost use Rattle.state_table.specs.Rows.{fields};
ghost use Rattle.state_table.specs.Packed.{row_of, field_at, below};

// What stands in a field. Statuses, pins and acts are numbers and no enums: the rows that specs/Rows quotes from the sheet have these numbers, and `statuses` and `pin_of` go by them.
#[derive(Clone, Copy)]
pub enum Access {
    // nothing: reserved
    Reserved,
    // always this value
    Fixed(u32),
    // a status, by its number
    Status(u32),
    // held flags: the first, and how many share the field
    Flag(u32, u32),
    // what was written last
    Stored,
    // a setting: its number, and what one of the field's code is worth
    Setting(u32, u32),
    // bits of the setting of masks: the first, and how many share the field
    Mask(u32, u32),
    // CELL_PIN, written by its own rule
    Counted,
    // a pin's code: 0 VCHG, 1 ICHG
    Pin(u32),
    // a bit that acts where it is written 1, and reads 0: 0 resets the registers, 1 serves the watchdog
    Acts(u32),
}

#[derive(Clone, Copy)]
pub struct Row {
    pub address: u32,
    pub low: u32,
    pub width: u32,
    pub access: Access,
}

// How many fields there are.
pub const FIELDS: u32 = 147;

// A row in one line.
macro_rules! row {
    ($address:literal, $low:literal, $width:literal, $access:expr) => {
        Row {
            address: $address,
            low: $low,
            width: $width,
            access: $access,
        }
    };
}

// From bit 0 of 0x00 up, as specs/Rows has them. A static lies in the program alone: a constant of this size would be laid on the stack.
static ROWS: [Row; 147] = [
    row!(0x00, 0, 4, Access::Reserved), // -
    row!(0x00, 4, 11, Access::Setting(6, 20)), // VSYSMIN
    row!(0x00, 15, 1, Access::Reserved), // -
    row!(0x02, 0, 4, Access::Reserved), // -
    row!(0x02, 4, 8, Access::Setting(2, 20)), // ICHG
    row!(0x02, 12, 4, Access::Reserved), // -
    row!(0x04, 0, 3, Access::Reserved), // -
    row!(0x04, 3, 12, Access::Setting(1, 10)), // VREG
    row!(0x04, 15, 1, Access::Reserved), // -
    row!(0x06, 0, 4, Access::Reserved), // -
    row!(0x06, 4, 8, Access::Setting(5, 20)), // IINDPM
    row!(0x06, 12, 4, Access::Reserved), // -
    row!(0x08, 0, 4, Access::Reserved), // -
    row!(0x08, 4, 11, Access::Stored), // VINDPM
    row!(0x08, 15, 1, Access::Reserved), // -
    row!(0x0A, 0, 4, Access::Reserved), // -
    row!(0x0A, 4, 8, Access::Stored), // IIN_REV
    row!(0x0A, 12, 4, Access::Reserved), // -
    row!(0x0C, 0, 4, Access::Reserved), // -
    row!(0x0C, 4, 11, Access::Stored), // VIN_REV
    row!(0x0C, 15, 1, Access::Reserved), // -
    row!(0x0E, 0, 6, Access::Setting(3, 20)), // IPRECHG
    row!(0x0E, 6, 2, Access::Reserved), // -
    row!(0x0F, 0, 6, Access::Setting(4, 20)), // ITERM
    row!(0x0F, 6, 2, Access::Reserved), // -
    row!(0x10, 0, 1, Access::Stored), // EN_PRECHG
    row!(0x10, 1, 2, Access::Setting(7, 1)), // VBAT_LOWV
    row!(0x10, 3, 1, Access::Setting(10, 1)), // EN_TERM
    row!(0x10, 4, 2, Access::Setting(8, 1)), // VRECHG
    row!(0x10, 6, 1, Access::Setting(13, 1)), // DIS_STAT
    row!(0x10, 7, 1, Access::Acts(0)), // REG_RST
    row!(0x11, 0, 1, Access::Stored), // EN_TMR2X
    row!(0x11, 1, 2, Access::Stored), // CHG_TMR
    row!(0x11, 3, 1, Access::Stored), // EN_CHG_TMR
    row!(0x11, 4, 2, Access::Stored), // WATCHDOG
    row!(0x11, 6, 2, Access::Stored), // TOPOFF_TMR
    row!(0x12, 0, 1, Access::Stored), // PRECHG_TMR
    row!(0x12, 1, 1, Access::Stored), // STOP_WD_CHG
    row!(0x12, 2, 1, Access::Acts(1)), // WD_RST
    row!(0x12, 3, 1, Access::Stored), // EN_EXT_BYPASS
    row!(0x12, 4, 1, Access::Stored), // EN_BYPASS
    row!(0x12, 5, 1, Access::Stored), // RBAT_SNS
    row!(0x12, 6, 2, Access::Stored), // IBAT_REV
    row!(0x13, 0, 1, Access::Stored), // EN_BACKUP
    row!(0x13, 1, 1, Access::Stored), // EN_REV
    row!(0x13, 2, 1, Access::Stored), // RAC_SNS
    row!(0x13, 3, 1, Access::Stored), // FORCE_VIN_DSCHG
    row!(0x13, 4, 1, Access::Setting(11, 1)), // EN_HIZ
    row!(0x13, 5, 1, Access::Setting(9, 1)), // EN_CHG
    row!(0x13, 6, 1, Access::Stored), // FORCE_ISYS_DSCHG
    row!(0x13, 7, 1, Access::Stored), // EN_AUTO_DSCHG
    row!(0x14, 0, 1, Access::Stored), // EN_ICO
    row!(0x14, 1, 1, Access::Stored), // FORCE_ICO
    row!(0x14, 2, 1, Access::Stored), // FORCE_VINDPM
    row!(0x14, 3, 1, Access::Stored), // EN_BAT_DETECT
    row!(0x14, 4, 1, Access::Stored), // BATFET_CTRL
    row!(0x14, 5, 1, Access::Setting(12, 1)), // EN_EXTILIM
    row!(0x14, 6, 2, Access::Stored), // VIN_BACKUP
    row!(0x15, 0, 2, Access::Stored), // VBAT_DETECT
    row!(0x15, 2, 1, Access::Reserved), // -
    row!(0x15, 3, 1, Access::Stored), // EN_FAST_VOTG_RESPONSE
    row!(0x15, 4, 4, Access::Reserved), // -
    row!(0x16, 0, 3, Access::Stored), // FSW
    row!(0x16, 3, 2, Access::Stored), // EN_DITHER
    row!(0x16, 5, 1, Access::Stored), // TREG
    row!(0x16, 6, 1, Access::Stored), // EN_PFM_OOA
    row!(0x16, 7, 1, Access::Stored), // EN_PFM
    row!(0x17, 0, 1, Access::Stored), // EN_MPPT
    row!(0x17, 1, 2, Access::Stored), // VOC_RATE
    row!(0x17, 3, 2, Access::Stored), // VOC_DLY
    row!(0x17, 5, 3, Access::Stored), // VOC_PCT
    row!(0x18, 0, 2, Access::Stored), // TS_TH1
    row!(0x18, 2, 2, Access::Stored), // TS_TH2
    row!(0x18, 4, 2, Access::Stored), // TS_TH3
    row!(0x18, 6, 2, Access::Stored), // TS_TH5
    row!(0x19, 0, 1, Access::Stored), // EN_TS
    row!(0x19, 1, 1, Access::Stored), // EN_JEITA
    row!(0x19, 2, 2, Access::Stored), // JEITA_ISETC
    row!(0x19, 4, 1, Access::Stored), // JEITA_ISETH
    row!(0x19, 5, 2, Access::Stored), // JEITA_VSET
    row!(0x19, 7, 1, Access::Stored), // EN_BYPASS_LL_EXIT
    row!(0x1A, 0, 4, Access::Stored), // CV_TMR
    row!(0x1A, 4, 1, Access::Reserved), // -
    row!(0x1A, 5, 1, Access::Stored), // TS_REV_COLD
    row!(0x1A, 6, 2, Access::Stored), // TS_REV_HOT
    row!(0x1B, 0, 3, Access::Counted), // CELL_PIN
    row!(0x1B, 3, 3, Access::Pin(0)), // VCHG_PIN
    row!(0x1B, 6, 1, Access::Stored), // CELL_PIN_OVERRIDE
    row!(0x1B, 7, 1, Access::Stored), // VCHG_PIN_OVERRIDE
    row!(0x1C, 0, 3, Access::Pin(1)), // ICHG_PIN
    row!(0x1C, 3, 1, Access::Stored), // ICHG_PIN_OVERRIDE
    row!(0x1C, 4, 4, Access::Reserved), // -
    row!(0x1D, 0, 3, Access::Status(0)), // CHARGE_STAT
    row!(0x1D, 3, 1, Access::Status(1)), // WD_STAT
    row!(0x1D, 4, 1, Access::Status(2)), // TREG_STAT
    row!(0x1D, 5, 1, Access::Status(3)), // VINDPM_STAT
    row!(0x1D, 6, 1, Access::Status(4)), // IINDPM_STAT
    row!(0x1D, 7, 1, Access::Status(5)), // PG_STAT
    row!(0x1E, 0, 3, Access::Status(6)), // TS_STAT
    row!(0x1E, 3, 2, Access::Fixed(0)), // REV_STAT
    row!(0x1E, 5, 2, Access::Fixed(0)), // ICO_STAT
    row!(0x1E, 7, 1, Access::Reserved), // -
    row!(0x1F, 0, 1, Access::Fixed(0)), // REV_TERM_STAT
    row!(0x1F, 1, 1, Access::Reserved), // -
    row!(0x1F, 2, 1, Access::Status(7)), // TSHUT_STAT
    row!(0x1F, 3, 1, Access::Fixed(0)), // CV_TMR_STAT
    row!(0x1F, 4, 1, Access::Status(8)), // CHG_TMR_STAT
    row!(0x1F, 5, 2, Access::Status(9)), // BAT_FAULT_STAT
    row!(0x1F, 7, 1, Access::Status(10)), // VIN_OVP_STAT
    row!(0x20, 0, 1, Access::Flag(6, 1)), // CHARGE_FLAG
    row!(0x20, 1, 1, Access::Flag(7, 1)), // TS_FLAG
    row!(0x20, 2, 1, Access::Fixed(0)), // ICO_FLAG
    row!(0x20, 3, 1, Access::Flag(5, 1)), // WD_FLAG
    row!(0x20, 4, 1, Access::Flag(4, 1)), // TREG_FLAG
    row!(0x20, 5, 1, Access::Flag(3, 1)), // VINDPM_FLAG
    row!(0x20, 6, 1, Access::Flag(2, 1)), // IINDPM_FLAG
    row!(0x20, 7, 1, Access::Flag(0, 2)), // PG_FLAG
    row!(0x21, 0, 1, Access::Fixed(0)), // REV_FLAG
    row!(0x21, 1, 1, Access::Reserved), // -
    row!(0x21, 2, 1, Access::Fixed(0)), // BYPASS_FLAG
    row!(0x21, 3, 1, Access::Flag(9, 1)), // TSHUT_FLAG
    row!(0x21, 4, 1, Access::Fixed(0)), // CV_TMR_FLAG
    row!(0x21, 5, 1, Access::Flag(11, 1)), // CHG_TMR_FLAG
    row!(0x21, 6, 1, Access::Flag(10, 1)), // BAT_FAULT_FLAG
    row!(0x21, 7, 1, Access::Flag(8, 1)), // VIN_OVP_FLAG
    row!(0x22, 0, 1, Access::Mask(6, 1)), // CHARGE_MASK
    row!(0x22, 1, 1, Access::Mask(7, 1)), // TS_MASK
    row!(0x22, 2, 1, Access::Stored), // ICO_MASK
    row!(0x22, 3, 1, Access::Mask(5, 1)), // WD_MASK
    row!(0x22, 4, 1, Access::Mask(4, 1)), // TREG_MASK
    row!(0x22, 5, 1, Access::Mask(3, 1)), // VINDPM_MASK
    row!(0x22, 6, 1, Access::Mask(2, 1)), // IINDPM_MASK
    row!(0x22, 7, 1, Access::Mask(0, 2)), // PG_MASK
    row!(0x23, 0, 1, Access::Stored), // REV_MASK
    row!(0x23, 1, 1, Access::Reserved), // -
    row!(0x23, 2, 1, Access::Stored), // BYPASS_MASK
    row!(0x23, 3, 1, Access::Mask(9, 1)), // TSHUT_MASK
    row!(0x23, 4, 1, Access::Stored), // CV_TMR_MASK
    row!(0x23, 5, 1, Access::Mask(11, 1)), // CHG_TMR_MASK
    row!(0x23, 6, 1, Access::Mask(10, 1)), // BAT_FAULT_MASK
    row!(0x23, 7, 1, Access::Mask(8, 1)), // VIN_OVP_MASK
    row!(0x24, 0, 4, Access::Reserved), // -
    row!(0x24, 4, 8, Access::Fixed(165)), // ICO_IINDPM
    row!(0x24, 12, 4, Access::Reserved), // -
    row!(0x26, 0, 2, Access::Fixed(1)), // DEV_REV
    row!(0x26, 2, 4, Access::Fixed(1)), // PN
    row!(0x26, 6, 2, Access::Reserved), // -
];

// The row of a field, by its place in the table; the places go round.
pub fn row_at(number: u32) -> Row
    ensures { result ≡ row_of (field_at number) }
{
    ROWS[(number % FIELDS) as usize]
}

// How many fields stand before the first one of an address. Callers go over an address's rows by a `for` of their own: a fold that takes the step as a closure promises only what its
// calls may return, so it has no `OneOutcome`.
// An arm for each address: a search of ROWS (`partition_point`) proves too, and takes eight comparisons for one jump.
#[tactic(auto, unfolding(crate::specs::Rows::fields))]
pub fn rows_below(address: u32) -> u32
    ensures { result ≡ below address fields }
{
    match address {
        0x00 => 0,
        0x01 => 3,
        0x02 => 3,
        0x03 => 6,
        0x04 => 6,
        0x05 => 9,
        0x06 => 9,
        0x07 => 12,
        0x08 => 12,
        0x09 => 15,
        0x0A => 15,
        0x0B => 18,
        0x0C => 18,
        0x0D => 21,
        0x0E => 21,
        0x0F => 23,
        0x10 => 25,
        0x11 => 31,
        0x12 => 36,
        0x13 => 43,
        0x14 => 51,
        0x15 => 58,
        0x16 => 62,
        0x17 => 67,
        0x18 => 71,
        0x19 => 75,
        0x1A => 81,
        0x1B => 85,
        0x1C => 89,
        0x1D => 92,
        0x1E => 98,
        0x1F => 102,
        0x20 => 109,
        0x21 => 117,
        0x22 => 125,
        0x23 => 133,
        0x24 => 141,
        0x25 => 144,
        0x26 => 144,
        _ => FIELDS,
    }
}
