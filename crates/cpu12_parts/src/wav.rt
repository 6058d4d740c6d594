//! WAV: the weighted average (CPU12 Reference Manual, section 9.6).
ghost use Rattle.std.specs.Prelude.{ℕ, ◌≡◌, ◌<◌, ◌/◌, ◌%◌, ◌^◌};
ghost use Rattle.cpu12_isa.specs.Memory.{plus};
ghost use Rattle.cpu12_parts.specs.Parts.{wav, wav_end};
ghost use Rattle.cpu12_parts.specs.{Laws.AreKept, Owed.WholeAverage};

use crate::laws::{wav_goes_on, wav_is_whole, wav_steady, wav_writes_below};
use crate::temps::{PartEnd, Resumable, Temps};
use cpu12_isa::ccr::{HNVC, HNZVC, ZERO};
use cpu12_isa::instr::Regs;
use cpu12_isa::mem::Mem;
use cpu12_isa::stack::{place, pull_word};

/// WAV: sums the products of B pairs of bytes at X and Y, and the bytes at Y. Between two parts PC is at its last
/// byte, `$3C`, and the sums are running; an interrupt pushes them, and `wavr` resumes with them.
pub struct Wav;

/// Ends WAV.
fn end(r: &mut Regs, product: u32, weight: u16, flags: u8)
    ensures { r.new ≡ wav_end flags r.old product weight r.old.pc }
{
    r.y = (product / 65536) as u16;
    r.a = (product / 256 % 256) as u8;
    r.b = (product % 256) as u8;
    r.x = weight;
    r.pass(1);
    r.ccr = r.ccr.opened(HNVC, flags).put(ZERO, true);
}

impl Resumable for Wav {
    ghost kind = { λ _. wav };

    ghost kept = { λ _. AreKept };

    ghost whole = { λ _. WholeAverage };

    fn part<M: Mem>(&self, r: &mut Regs, m: &mut M, t: &mut Temps, flags: u8) -> PartEnd {
        let (product, weight) = match *t {
            Temps::Running(product, weight) => (product, weight),
            _ => {
                r.pass(1);
                (0, 0)
            }
        };
        if r.b == 0 {
            end(r, product, weight, flags);
            *t = Temps::Free;
            return PartEnd::Done;
        }
        let u = m.read(r.x);
        let v = m.read(r.y);
        let product = product.wrapping_add(u as u32 * v as u32);
        let weight = weight.wrapping_add(v as u16);
        if r.b == 1 {
            end(r, product, weight, flags);
            *t = Temps::Free;
            return PartEnd::Done;
        }
        r.x = r.x.wrapping_add(1);
        r.y = r.y.wrapping_add(1);
        r.b -= 1;
        r.ccr = r.ccr.opened(HNZVC, flags);
        *t = Temps::Running(product, weight);
        PartEnd::More
    }

    fn suspend<M: Mem>(&self, r: &mut Regs, m: &mut M, t: &mut Temps) {
        if let Temps::Running(product, weight) = *t {
            r.sp = r.sp.wrapping_sub(6);
            let bytes = [
                (product / 16777216) as u8,
                (product / 65536 % 256) as u8,
                (product / 256 % 256) as u8,
                (product % 256) as u8,
                (weight / 256) as u8,
                (weight % 256) as u8,
            ];
            place(m, r.sp, &bytes);
            *t = Temps::OnStack;
        }
    }

    fn resume<M: Mem>(&self, r: &mut Regs, m: &mut M, t: &mut Temps) {
        if let Temps::Running(_, _) = *t {
            return;
        }
        let product_high = pull_word(r, m);
        let product_low = pull_word(r, m);
        let weight = pull_word(r, m);
        *t = Temps::Running(product_high as u32 * 65536 + product_low as u32, weight);
    }

    fn is_lawful(&self) {
        wav_goes_on();
        wav_writes_below();
        wav_steady();
        wav_is_whole();
    }
}
