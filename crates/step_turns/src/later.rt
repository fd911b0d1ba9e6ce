// What may follow a power-on.
use log_raw::RawBytes;
use state_parts::sample::Sample;

#[derive(Clone, Copy)]
pub enum Later {
    // a setting's number and its value
    Set(u32, u32),
    // a register's address and the byte
    Write(u32, u32),
    TakeFlags,
    Observe(Sample),
    Service,
    Reset,
    // the address that a run of bytes starts at, and the bytes
    WriteRun(u32, RawBytes),
    // a flag register's address
    ReadFlags(u32),
}
