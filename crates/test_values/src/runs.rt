//! Firmware and its runs: code byte by byte, samples with and without interrupts, and scripts.
mod blocks;
mod firmware;
mod posted;
mod runs;
mod scripts;
mod workloads;
