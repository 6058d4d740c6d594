//! The image of a firmware with a handler.
ghost use Rattle.std.specs.Prelude.{ℕ, ◌≡◌, IfOk, OnOk};
ghost use Rattle.cpu12_asm.specs.Bytes.{byte_at, start_of};
ghost use Rattle.handled_runs.specs.Joint.{either, joint_bytes};

use cpu12_asm::{ByteMap, Image};
use cpu12_isa::mem::VECTOR;
use fz_list::Memory;
use std::alloc::{AllocError, Global};

/// Puts all bytes of one map into another, replacing those that are there.
fn put_each(alloc: Global, map: &mut ByteMap, from: &ByteMap) -> Result<(), AllocError>
    ensures { OnOk result ((q : ℕ) → byte_at map.new q ≡ either (byte_at from.now q) (byte_at map.old q)) }
{
    let mut bytes = from.to_vec(alloc)?;
    while let Some((at, byte)) = bytes.pop() {
        map.insert(at, byte)?;
    }
    Ok(())
}

/// The bytes of both, and `$4000` in the interrupt's vector.
fn joint_map(alloc: Global, firmware: &ByteMap, handler: &ByteMap) -> Result<ByteMap, AllocError>
    ensures { IfOk result (λ m. (q : ℕ) → byte_at m q ≡ byte_at (joint_bytes firmware.now handler.now) q) }
{
    let mut map = ByteMap::new(alloc);
    put_each(alloc, &mut map, firmware)?;
    put_each(alloc, &mut map, handler)?;
    map.insert(VECTOR + 1, 0x00)?;
    map.insert(VECTOR, 0x40)?;
    Ok(map)
}

/// The image of a firmware with a handler's bytes replacing those at their addresses, and `$4000` in the
/// interrupt's vector. Lack of memory is the only error.
pub fn joint_image(alloc: Global, firmware: &Image, handler: &Image) -> Result<Image, Memory>
    ensures bytes { IfOk result (λ i. (q : ℕ)
        → byte_at i.bytes q ≡ byte_at (joint_bytes firmware.now.bytes handler.now.bytes) q) }
    ensures start { IfOk result (λ i. i.start ≡ start_of i.bytes) }
{
    match joint_map(alloc, &firmware.bytes, &handler.bytes) {
        Ok(bytes) => {
            let start = bytes.start();
            Ok(Image { bytes, start })
        }
        Err(_) => Err(Memory),
    }
}
