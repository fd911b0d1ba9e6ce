// What the calls answer, plain numbers as the C interface has them: 0 or the refusal's number, its place, and what the call is about.
ghost use Rattle.std.specs.Prelude.{◌≡◌};
ghost use Rattle.c_calls.specs.Landing.{answered, number_in, number_told, value_told};

use base::refusal::Refusal;

#[repr(C)]
#[derive(Clone, Copy)]
pub struct Answer {
    pub number: u32,
    pub place: usize,
}

// Outside a log: the number of what an event or a call came to, or of a refusal before that.
pub(crate) fn answered(got: Result<u32, Refusal>) -> Answer
    ensures { result ≡ answered (number_in got) }
{
    let number = match got {
        Ok(number) => number,
        Err(refusal) => u32::from(refusal),
    };
    Answer { number, place: 0 }
}

// What a call came to as its number, 0 or the refusal's, and what it asked for, 0 with a refusal.
pub(crate) fn told(got: Result<u32, Refusal>) -> (u32, u32)
    ensures number { result.0 ≡ number_told got }
    ensures value { result.1 ≡ value_told got }
{
    match got {
        Ok(value) => (0, value),
        Err(refusal) => (u32::from(refusal), 0),
    }
}

#[repr(C)]
#[derive(Clone, Copy)]
pub struct Played {
    pub number: u32,
    // of the record that was read; 0 if none was
    pub kind: u32,
    // the given place, where the record starts; if it can't be read, the place of what decided that
    pub place: usize,
    // where the next record starts; the given place if none was read
    pub next: usize,
}

#[repr(C)]
#[derive(Clone, Copy)]
pub struct Replayed {
    pub number: u32,
    // 0 at the log's end; else 1 to 5, of what can't be read
    pub code: u32,
    // how many were read
    pub records: usize,
    // the log's end; of what can't be read, the place of what decided that
    pub place: usize,
    // where to go on: the log's end, or where what can't be read starts
    pub next: usize,
}

#[repr(C)]
#[derive(Clone, Copy)]
pub struct Byte {
    pub number: u32,
    pub byte: u32,
    pub place: usize,
}

#[repr(C)]
#[derive(Clone, Copy)]
pub struct Put {
    pub number: u32,
    // bytes of the record
    pub count: u32,
    pub place: usize,
}

#[repr(C)]
#[derive(Clone, Copy)]
pub struct ComparedLogs {
    pub number: u32,
    // whose rest it is: 1 or 2; 0 with a refusal
    pub log: u32,
    // with a refusal, the record's number, from 1; else 0
    pub count: usize,
    // where the rest, or the record that differs, starts; of one that can't be read, the place of what decided that
    pub place: usize,
}
