#![tactic(auto)]
// The calls of a panel as values, and what each answers.
use refusal::Refusal;

// Registers and addresses are any numbers. A burst borrows its bytes. The bench's `Command` is another type, since a line's burst owns them and its runs have 16 bits.
#[derive(Clone, Copy)]
pub enum Call<'a> {
    Write { register: u8, value: u8 },
    Read { register: u8 },
    Burst(&'a [u8]),
    Run { pixels: u32 },
    Stop,
    Status,
    Memory { address: u32 },
}

// A burst answers the bytes taken and the pixels drawn.
#[derive(Clone, Copy)]
pub enum Answer {
    Write(Result<(), Refusal>),
    Read(Result<u8, Refusal>),
    Burst(Result<(usize, u32), Refusal>),
    Run(Result<u32, Refusal>),
    Stop(Result<u32, Refusal>),
    Status(u8),
    Memory(Result<u8, Refusal>),
}
