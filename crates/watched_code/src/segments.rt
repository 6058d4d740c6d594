//! The parts of an image whose bytes are summed before a sample is answered.
ghost use Rattle.std.specs.Prelude.{◌≡◌, ◌+◌, ◌%◌, ◌^◌, ◌<◌, ◌≤◌, ◌++◌, length, sum, sum_by, All, IfOk, OnOk};
ghost use Rattle.watched_code.specs.{Checksums.check_byte, Watched.segment_bound};
ghost use Rattle.watched_code.specs.WatchedCode.{segment_bytes, segments_of, weight_segments};

use eval_code::{MemoryMap, rule_bytes, singleton_bytes, table_bytes};
use fz_list::List;
use rule_layout::laws::flat_has_parts;
use rule_layout::{Flat, LaidOut, RuleInstruction};
use std::alloc::{AllocError, Global};

/// A part of an image whose bytes are summed: where it starts, and its bytes.
#[derive(Drop)]
pub struct Segment {
    pub at: u16,
    pub bytes: List<u8>,
}

/// Appends the weights to other segments, with REVW.
fn push_weights(
    alloc: Global,
    segments: &mut Vec<Segment>,
    memory_map: &MemoryMap,
    flat: &Flat,
) -> Result<(), AllocError>
    ensures { OnOk result (segments.new.items
        ≡ segments.old.items ++ weight_segments memory_map.now.weights flat.now.instruction flat.now.weights) }
{
    match flat.instruction {
        RuleInstruction::Rev => Ok(()),
        RuleInstruction::Revw => {
            let mut weights = Vec::new(alloc);
            weights.extend_from_slice(flat.weights.as_slice())?;
            segments.push(Segment {
                at: memory_map.weights,
                bytes: List::new(weights),
            })?;
            Ok(())
        }
    }
}

/// The segments of a block's image: the tables of its terms, its singletons, the weights with REVW, and the rule
/// list.
pub(crate) fn segments(
    alloc: Global,
    memory_map: &MemoryMap,
    laid_out: &LaidOut<'_>,
) -> Result<Vec<Segment>, AllocError>
    requires { memory_map.now.slots + 1024 < 2 ^ 16 }
    ensures { IfOk result (λ v. v.items ≡ segments_of memory_map.now laid_out.now.block.now) }
{
    flat_has_parts();
    let block = laid_out.block;
    let mut segments = Vec::new(alloc);
    segments.push(Segment {
        at: memory_map.tables,
        bytes: List::new(table_bytes(alloc, block)?),
    })?;
    segments.push(Segment {
        at: memory_map.singletons,
        bytes: List::new(singleton_bytes(alloc, block)?),
    })?;
    push_weights(alloc, &mut segments, memory_map, &laid_out.flat)?;
    segments.push(Segment {
        at: memory_map.rules,
        bytes: List::new(rule_bytes(alloc, memory_map.slots, laid_out)?),
    })?;
    Ok(segments)
}

/// Bytes added to a sum, modulo 256.
fn add_bytes(start: u8, bytes: &[u8]) -> u8
    ensures { result ≡ (start + sum bytes.now) % 2 ^ 8 }
{
    let mut total = start;
    for byte in bytes {
        total = total.wrapping_add(*byte);
    }
    total
}

/// The byte that makes the sum of all segments' bytes 0, modulo 256.
pub(crate) fn check_byte(segments: &[Segment]) -> u8
    ensures { result ≡ check_byte (segment_bytes segments.now) }
{
    let mut total: u8 = 0;
    for segment in segments {
        total = add_bytes(total, segment.bytes.as_slice());
    }
    0u8.wrapping_sub(total)
}

/// The instructions that sum the segments: three for each byte, and one for each segment.
pub(crate) fn segment_bounds(segments: &[Segment]) -> u32
    requires few { length segments.now ≤ 4 }
    requires short { All (λ s. length s.bytes ≤ 9984) segments.now }
    ensures value { result ≡ sum_by segment_bound segments.now }
    ensures few { result ≤ 119812 }
{
    let mut bound = 0;
    for segment in segments {
        bound += 1 + 3 * segment.bytes.len() as u32;
    }
    bound
}
