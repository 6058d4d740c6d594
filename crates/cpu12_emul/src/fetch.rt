//! The two instructions that evaluate lists, recognized by their bytes alone.
ghost use Rattle.std.specs.Prelude.{◌≡◌, ◌==◌, ◌&&◌, true, Ok, slice_index};
ghost use Rattle.cpu12_isa.specs.declared.instr.Instr.TheVariants.{Rev, Revw};
ghost use Rattle.cpu12_isa.specs.{Memory.plus, Code.decode_at};

use cpu12_isa::mem::Mem;

/// Whether REV is at `pc`: the bytes `$18 3A`.
pub(crate) fn is_rev<M: Mem>(m: &M, pc: u16) -> bool
    ensures bytes { result ≡ (slice_index (M.bytes m.now) pc == 0x18
        && slice_index (M.bytes m.now) (plus pc 1) == 0x3A) }
    ensures decoded { result ≡ true → decode_at (M.bytes m.now) pc ≡ Ok Rev }
{
    m.read(pc) == 0x18 && m.read(pc.wrapping_add(1)) == 0x3A
}

/// Whether REVW is at `pc`: the bytes `$18 3B`.
pub(crate) fn is_revw<M: Mem>(m: &M, pc: u16) -> bool
    ensures bytes { result ≡ (slice_index (M.bytes m.now) pc == 0x18
        && slice_index (M.bytes m.now) (plus pc 1) == 0x3B) }
    ensures decoded { result ≡ true → decode_at (M.bytes m.now) pc ≡ Ok Revw }
{
    m.read(pc) == 0x18 && m.read(pc.wrapping_add(1)) == 0x3B
}
