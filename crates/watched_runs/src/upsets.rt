//! The upset of a sample, in a list with ascending samples, and what it does.
ghost use Rattle.std.specs.Prelude.{ℕ, ◌≡◌, MatchResult, None, slice_get};
ghost use Rattle.cpu12_emul.specs.{Image.image_memory, Step.SameMachine};
ghost use Rattle.interrupt_plan.specs.Upsets.{SamplesAscend};
ghost use Rattle.watched_code.specs.Watched.{changed, restored};
ghost use Rattle.watched_runs.specs.Samples.{AscendThroughout, change_of, change_in};

use cpu12_asm::Image;
use cpu12_emul::laws::holds_image;
use cpu12_emul::machine::Machine;
use cpu12_isa::mem::Mem;
use interrupt_plan::{Upset, Upsets};

/// Upsets with ascending samples.
pub(crate) fn ascending(upsets: &Upsets) -> &[Upset]
    requires { SamplesAscend upsets.now }
    ensures same { result.now ≡ upsets.now }
    ensures ascend { AscendThroughout result.now }
{
    upsets.as_slice()
}

/// The index of the upset of a sample, or where it would be.
fn place_of(upsets: &[Upset], number: usize) -> Result<usize, usize>
    requires { AscendThroughout upsets.now }
    ensures { MatchResult result (λ i. change_in (slice_get upsets.now i) ≡ change_of number upsets.now)
        (λ i. change_of number upsets.now ≡ None) }
{
    upsets.binary_search_by_key(&number, |upset| upset.sample as usize)
}

/// The upset of a sample, counted from 1.
pub(crate) fn upset_of(upsets: &[Upset], number: usize) -> Option<Upset>
    requires { AscendThroughout upsets.now }
    ensures { change_in result ≡ change_of number upsets.now }
{
    match place_of(upsets, number) {
        Ok(at) => upsets.get(at).copied(),
        Err(_) => None,
    }
}

/// Changes the byte of an upset, if there is one.
pub(crate) fn change<M: Mem>(m: &mut Machine<M>, upset: Option<Upset>)
    ensures state { m.new.state
        ≡ record (m.old.state) { mem = changed (change_in upset) m.old.state.mem } }
    ensures machine { SameMachine m.old m.new }
{
    if let Some(upset) = upset {
        m.poke(upset.at, upset.value);
    }
}

/// Restores the image's byte where an upset changed it, if there is one.
pub(crate) fn restore<M: Mem>(m: &mut Machine<M>, image: &Image, upset: Option<Upset>)
    ensures state { m.new.state ≡ restored (image_memory image.now.bytes) (change_in upset) m.old.state }
    ensures machine { SameMachine m.old m.new }
{
    holds_image();
    if let Some(upset) = upset {
        let byte = image.bytes.get(upset.at).unwrap_or(0);
        m.poke(upset.at, byte);
    }
}
