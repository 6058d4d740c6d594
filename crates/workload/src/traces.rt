//! The samples that are drawn, and the trace that spells them.
ghost use Rattle.std.specs.Prelude.{◌≡◌, ◌≤◌, ℕ, [], ◌∷◌, ◌++◌, length, pos, IfOk, OnOk};
ghost use Rattle.byte_scaling.specs.Cells.{bytes_of};
ghost use Rattle.fuzzy_meaning.specs.Blocks.{IsValidInput};
ghost use Rattle.trace_io.specs.Traces.{Spells};
ghost use Rattle.csv.specs.Writing.{default_writer, row_text};
ghost use Rattle.workload.specs.{Blocks.drawn_input, Draws.state_after, Texts.sample_fields, Workloads.AreDrawnSamples};

use crate::draws::Draws;
use crate::rows::{decimal_of, with_field};
use arrayvec::ArrayVec;
use byte_scaling::byte_within;
use fuzzy_meaning::Input;
use fz_list::List;
use fz_num::Dec;
use std::alloc::{AllocError, Global};
use trace_io::Sample;

/// Samples, and the text that spells them.
#[derive(Drop)]
pub(crate) struct Trace {
    pub(crate) text: Vec<u8>,
    pub(crate) samples: Vec<Sample>,
}

/// Draws 1000 samples of two identical inputs.
pub(crate) fn drawn_trace(
    alloc: Global,
    draws: &mut Draws,
    input: &Input,
) -> Result<Trace, AllocError>
    requires input { input.now ≡ drawn_input }
    requires valid { IsValidInput input.now }
    ensures state { (number : ℕ) → draws.old.state ≡ state_after number 1
        → OnOk result (draws.new.state ≡ state_after number 2001) }
    ensures drawn { (number : ℕ) → draws.old.state ≡ state_after number 1
        → IfOk result (λ trace. AreDrawnSamples number trace.samples.items) }
    ensures spelled { IfOk result (λ trace.
        Spells (drawn_input ∷ drawn_input ∷ []) trace.text.items trace.samples.items) }
    ensures short { IfOk result (λ trace. length trace.text.items ≤ 1048576) }
{
    let mut text = Vec::new(alloc);
    let mut samples = Vec::new(alloc);
    for _row in 0..1000u32 {
        let (x, y) = draws.sample();
        text = with_sample(alloc, text, x, y)?;
        samples.push(sample_of(alloc, input, x, y)?)?;
    }
    Ok(Trace { text, samples })
}

/// The text followed by a sample's row.
fn with_sample(alloc: Global, text: Vec<u8>, x: u32, y: u32) -> Result<Vec<u8>, AllocError>
    ensures { IfOk result (λ t. t.items ≡ text.items ++ row_text default_writer (sample_fields (x, y))) }
{
    let first = decimal_of(alloc, x)?;
    let second = decimal_of(alloc, y)?;
    let begun = with_field(text, &first, b',')?;
    with_field(begun, &second, b'\n')
}

/// The sample of two numbers in 1/10000.
fn sample_of(alloc: Global, input: &Input, x: u32, y: u32) -> Result<Sample, AllocError>
    requires input { input.now ≡ drawn_input }
    requires valid { IsValidInput input.now }
    requires x { x ≤ 2560000 }
    requires y { y ≤ 2560000 }
    ensures values { IfOk result (λ s. s.values ≡ record { 0 = pos x } ∷ record { 0 = pos y } ∷ []) }
    ensures bytes { IfOk result (λ s.
        s.bytes.items ≡ bytes_of (drawn_input ∷ drawn_input ∷ []) (record { 0 = pos x } ∷ record { 0 = pos y } ∷ [])) }
{
    let (x, y) = (Dec(i64::from(x)), Dec(i64::from(y)));
    let mut bytes = ArrayVec::new();
    bytes.push(byte_within(input, x));
    bytes.push(byte_within(input, y));
    let values = List::new(vec![in alloc; x, y]?);
    Ok(Sample { values, bytes })
}
