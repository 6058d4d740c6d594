//! The code that checks a firmware's tables before EVAL.
ghost use Rattle.std.specs.Prelude.{◌≡◌, ◌+◌, ◌^◌, ◌<◌, ◌≤◌, ◌∷◌, ◌++◌, length, All, IfOk, OnOk};
ghost use Rattle.fuzzy_meaning.specs.Blocks.{IsValidOutput};
ghost use Rattle.cpu12_isa.specs.declared.instr.Instr.TheVariants as Instr;
ghost use Rattle.watched_code.specs.WatchedCode.{AreSegments, bad_code, check_code, code_length, defaults_code};
ghost use Rattle.watched_code.specs.WatchedCode.{segments_code, watched_front_over};

use crate::segments::{Segment, check_byte};
use byte_scaling::near;
use cpu12_isa::encode::encode;
use cpu12_isa::instr::Instr;
use eval_code::MemoryMap;
use firmware_code::frame_code;
use fuzzy_meaning::Output;
use std::alloc::{AllocError, Global};

/// FAULT, which is 1 if the tables have changed, and else 0.
pub const FAULT: u16 = 0x1030;

/// The length of code in bytes.
pub(crate) fn code_length(code: &[Instr]) -> u16
    requires { length code.now ≤ 1000 }
    ensures { result ≡ code_length code.now }
{
    let mut bytes = 0;
    for instruction in code {
        bytes += encode(instruction).len() as u16;
    }
    bytes
}

/// The outputs' defaults, stored from an address on. An output with NC keeps its byte.
fn push_defaults(code: &mut Vec<Instr>, first: u16, outputs: &[Output]) -> Result<(), AllocError>
    requires valid { All IsValidOutput outputs.now }
    requires room { first + length outputs.now < 2 ^ 16 }
    ensures { OnOk result (code.new.items ≡ code.old.items ++ defaults_code first outputs.now) }
{
    let mut at = first;
    for output in outputs {
        if let Some(default) = output.default {
            code.push(Instr::LdabImmediate(near(output, default)))?;
            code.push(Instr::StabExtended(at))?;
        }
        at += 1;
    }
    Ok(())
}

/// BAD: FAULT is set, and the outputs get their defaults.
pub(crate) fn bad_code(
    alloc: Global,
    memory_map: &MemoryMap,
    outputs: &[Output],
) -> Result<Vec<Instr>, AllocError>
    requires valid { All IsValidOutput outputs.now }
    requires few { length outputs.now ≤ 4 }
    requires room { memory_map.now.outputs + 8 < 2 ^ 16 }
    ensures { IfOk result (λ code. code.items ≡ bad_code memory_map.now outputs.now) }
{
    let mut code = Vec::new(alloc);
    code.push(Instr::LdabImmediate(1))?;
    code.push(Instr::StabExtended(FAULT))?;
    push_defaults(&mut code, memory_map.outputs, outputs)?;
    code.push(Instr::Rts)?;
    Ok(code)
}

/// Sets B to the sum of the segments' bytes.
fn sum_code(alloc: Global, segments: &[Segment]) -> Result<Vec<Instr>, AllocError>
    requires { AreSegments segments.now }
    ensures { IfOk result (λ code. code.items ≡ Instr.LdabImmediate 0 ∷ segments_code segments.now) }
{
    let mut code = Vec::new(alloc);
    code.push(Instr::LdabImmediate(0))?;
    for segment in segments {
        code.push(Instr::LdxImmediate(segment.at))?;
        code.push(Instr::AddbPostIncrementX)?;
        code.push(Instr::CpxImmediate(segment.at + segment.bytes.len() as u16))?;
        code.push(Instr::Bne(0xF9))?;
    }
    Ok(code)
}

/// The check: goes to BAD if the sum of the segments with their check byte is not 0, and else clears FAULT.
fn check_code(
    alloc: Global,
    memory_map: &MemoryMap,
    outputs: &[Output],
    segments: &[Segment],
    bad: &[Instr],
) -> Result<Vec<Instr>, AllocError>
    requires few { length outputs.now ≤ 4 }
    requires few_segments { length segments.now ≤ 4 }
    requires fit { AreSegments segments.now }
    requires bad { bad.now ≡ bad_code memory_map.now outputs.now }
    ensures { IfOk result (λ code. code.items ≡ check_code memory_map.now outputs.now segments.now) }
{
    let mut code = sum_code(alloc, segments)?;
    let back = code_length(bad) + code_length(&code) + 4;
    code.push(Instr::AddbImmediate(check_byte(segments)))?;
    code.push(Instr::Bne((256 - back) as u8))?;
    code.push(Instr::ClrExtended(FAULT))?;
    Ok(code)
}

/// The code before EVAL: the frame, which calls the check, BAD and the check.
pub(crate) fn watched_front(
    alloc: Global,
    memory_map: &MemoryMap,
    outputs: &[Output],
    segments: &[Segment],
) -> Result<Vec<Instr>, AllocError>
    requires valid { All IsValidOutput outputs.now }
    requires few { length outputs.now ≤ 4 }
    requires few_segments { length segments.now ≤ 4 }
    requires fit { AreSegments segments.now }
    requires room { (memory_map.now.code + 64 < 2 ^ 16) × (memory_map.now.outputs + 8 < 2 ^ 16) }
    ensures { IfOk result (λ code. code.items ≡ watched_front_over memory_map.now outputs.now segments.now) }
{
    let bad = bad_code(alloc, memory_map, outputs)?;
    let check = check_code(alloc, memory_map, outputs, segments, &bad)?;
    let bad_at = memory_map.code + code_length(&frame_code(memory_map));
    let frame = frame_code(&MemoryMap {
        eval: bad_at + code_length(&bad),
        ..*memory_map
    });
    let mut front = Vec::new(alloc);
    front.extend_from_slice(&frame)?;
    front.extend_from_slice(&bad)?;
    front.extend_from_slice(&check)?;
    Ok(front)
}
