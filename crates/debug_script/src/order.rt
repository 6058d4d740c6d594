//! The orders of a script.

use fz_list::List;
use thiserror::Error;

/// What a line of a script orders. An address is that of a byte of memory.
#[derive(Clone, Copy, PartialEq, Eq, Drop)]
pub enum Order {
    /// `break HHHH`: stop where PC is this address.
    Break(u16),
    /// `unbreak HHHH`: no longer stop there.
    Unbreak(u16),
    /// `watch HHHH`: stop where the byte there has changed.
    Watch(u16),
    /// `unwatch HHHH`: no longer watch it.
    Unwatch(u16),
    /// `step N`: advance N positions, 1 to 1000000.
    Step(u32),
    /// `go`: advance to a position at which something stops the run.
    Go,
    /// `regs`: show the registers.
    Registers,
    /// `mem HHHH N`: show N bytes from an address on, 1 to 16.
    Memory(u16, u32),
}

/// Orders one after the other.
pub type Script = List<Order>;

/// Why a text is no script. Lines count from 1.
#[derive(Clone, Copy, PartialEq, Eq, Debug, Error)]
pub enum ScriptFault {
    /// That line has no order's form, or does not end with LF.
    #[error("line {0} is of no form")]
    Line(u32),
    /// Out of memory.
    #[error("no memory")]
    Memory,
}
