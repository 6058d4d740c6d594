//! What orders show.

use cpu12_isa::instr::Regs;
use fz_list::List;

/// What an order shows of a run.
#[derive(Drop)]
pub enum Shown {
    /// The run is at that boundary of that sample, counted from 1, with that PC.
    Stop(u32, u32, u16),
    /// The registers.
    Registers(Regs),
    /// Bytes from an address on, wrapping from the end of memory to its start.
    Bytes(u16, List<u8>),
}
