// What the stored fields of the register map hold: eight addresses to a word, from 0x00 on, the lowest address lowest.
// Five fields and no array: to a theorem an array is a list of any length, so a law of every state, as that its image gives it back, would have to ask for the length.
#[derive(Clone, Copy)]
pub struct Words {
    pub w0: u64,
    pub w1: u64,
    pub w2: u64,
    pub w3: u64,
    pub w4: u64,
}
