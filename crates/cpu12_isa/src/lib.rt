//! The instructions of the CPU12 that generated code, interrupt handlers and tools use, by the CPU12 Reference
//! Manual in its edition S12CPUV2, whose sections are cited throughout: registers ([`instr::Regs`],
//! [`instr::Ccr`]), instructions by their encodings ([`instr::Instr`]), memory of 65536 bytes ([`mem::Mem`],
//! [`pages::PageMem`], [`mem::FlatMem`]), and the calls [`decode::decode`], [`encode::encode`] and [`exec::exec`].
//!
//! What an instruction does is defined as an *act*: the addresses that it reads one after the other, then the new
//! registers and the bytes that it writes. `exec` does exactly that for every implementation of `Mem`, and
//! `decode` returns the instruction whose encoding is at an address, or a trap with the first byte that is in no
//! table. Only `Mem::fresh` allocates memory.
#![tactic(auto)]

pub mod ccr;
pub mod decode;
pub mod encode;
pub mod encodings;
pub mod exec;
pub mod instr;
pub mod laws;
pub mod mem;
pub mod mnemonic;
pub mod pages;
pub mod regs;
pub mod stack;
pub mod watching;
