//! The check of a handler.
ghost use Rattle.std.specs.Prelude.{◌≡◌, ◌≢◌, ◌<◌, ◌≤◌, ◌&&◌, nat_le, nat_lt, if◌then◌else◌, ℕ, None, IsSome, IfOk};
ghost use Rattle.std.specs.Prelude.{IfErr};
ghost use Rattle.cpu12_asm.specs.Bytes.{byte_at};
ghost use Rattle.handler_check.specs.{Cut.code_start, Cut.code_limit, Running.RunsAsTakes};
ghost use Rattle.handler_check.specs.Images.{IsRun, IsFault, IsHandler};

use crate::cut::cut_of;
use crate::faults::{CODE_LIMIT, CODE_START, Handler, HandlerFault};
use crate::judge::judge;
use crate::laws::handlers_run_as_takes;
use cpu12_asm::{ByteMap, Image};
use cpu12_isa::laws::decodes_encoded;
use cpu12_isa::mem::{FlatMem, Mem};
use std::alloc::{AllocError, Global};

/// The bytes from `$4000` on without a gap, up to `$4FFF` at most, and the address after them.
fn run(alloc: Global, bytes: &ByteMap) -> Result<(ByteMap, u16), AllocError>
    ensures low { IfOk result (λ r. code_start ≤ r.1) }
    ensures high { IfOk result (λ r. r.1 ≤ code_limit) }
    ensures bytes { IfOk result (λ r. (q : ℕ) → byte_at r.0 q
        ≡ (if nat_le code_start q && nat_lt q r.1 then byte_at bytes.now q else None)) }
    ensures some { IfOk result (λ r. (q : ℕ) → code_start ≤ q → q < r.1 → IsSome (byte_at bytes.now q)) }
    ensures ends { IfOk result (λ r. r.1 < code_limit → byte_at bytes.now r.1 ≡ None) }
{
    let mut inside = ByteMap::new(alloc);
    let mut at = CODE_START;
    while at < CODE_LIMIT {
        match bytes.get(at) {
            Some(byte) => {
                inside.insert(at, byte)?;
                at += 1;
            }
            None => return Ok((inside, at)),
        }
    }
    Ok((inside, at))
}

/// The address after the bytes of an image, if it has bytes from `$4000` on and nowhere else.
fn end_of(alloc: Global, bytes: &ByteMap) -> Result<u16, HandlerFault>
    ensures run { IfOk result (IsRun bytes.now) }
    ensures fault { IfErr result (λ f. f ≢ HandlerFault.Memory → IsFault bytes.now f) }
{
    let (inside, end) = match run(alloc, bytes) {
        Ok(run) => run,
        Err(_) => return Err(HandlerFault::Memory),
    };
    if end == CODE_START {
        return Err(HandlerFault::Empty);
    }
    match bytes.first_difference(&inside) {
        Some(at) => Err(HandlerFault::Outside(at)),
        None => Ok(end),
    }
}

/// Checks the bytes from `$4000` up to a place, once they are in a memory.
fn check_in<M: Mem>(
    alloc: Global,
    m: &mut M,
    bytes: &ByteMap,
    end: u16,
) -> Result<Handler, HandlerFault>
    requires { IsRun bytes.now end }
    ensures accepted { IfOk result (λ h. IsHandler bytes.now h.instrs) }
    ensures fault { IfErr result (λ f. f ≢ HandlerFault.Memory → IsFault bytes.now f) }
{
    decodes_encoded();
    bytes.write_to(m);
    match cut_of(alloc, m, end) {
        Ok(cut) => judge(alloc, &cut),
        Err(_) => Err(HandlerFault::Memory),
    }
}

/// Checks a handler: the bytes of an image, from `$4000` to at most `$4FFF`. Returns the greatest number of
/// instructions on a path from `$4000` to an RTI, or the first fault. From every state whose SP leaves 24 bytes of
/// the stack, after WAV's sums if they are running, with the image's bytes in memory and `$4000` in the
/// interrupt's vector, an interrupt that runs these instructions reaches its RTI after at most that number of
/// steps, and leaves what an interrupt with some list of writes to free bytes leaves.
pub fn check_handler(alloc: Global, image: &Image) -> Result<Handler, HandlerFault>
    ensures accepted { IfOk result (λ h. IsHandler image.now.bytes h.instrs) }
    ensures fault { IfErr result (λ f. f ≢ HandlerFault.Memory → IsFault image.now.bytes f) }
    ensures takes { IfOk result (λ h. RunsAsTakes image.now.bytes h.instrs) }
{
    handlers_run_as_takes();
    let end = end_of(alloc, &image.bytes)?;
    match FlatMem::fresh(alloc) {
        Ok(mut m) => check_in(alloc, &mut m, &image.bytes, end),
        Err(_) => Err(HandlerFault::Memory),
    }
}
