//! The fast code inside an interrupt, as a form of runs.
ghost use Rattle.std.specs.Prelude.{ℕ, ◌≤◌, ◌+◌};
ghost use Rattle.arrayvec.specs.ArrayVec.{array_vec_len};
ghost use Rattle.two_level_runs.specs.InnerNotes.{fast_harness};
ghost use Rattle.cpu12_emul.specs.Simulation.{OnStackOnly};
ghost use Rattle.two_level_runs.specs.{Runs.fast_form, Steps.is_open_inside, Steps.IsFastState};
ghost use Rattle.two_level_runs.specs.Inside.{Inside, AnyMoment, HoldsBytes};

use arrayvec::ArrayVec;
use cpu12_emul::ends::Frame;
use cpu12_emul::machine::Machine;
use cpu12_isa::mem::Mem;
use run_forms::SampleForm;
use run_law::laws::SoundForm;

/// What an inner interrupt pushed.
#[derive(Drop)]
pub struct InnerFrame {
    /// How many steps of the fast run were done before it.
    pub boundary: u32,
    pub frame: Frame,
}

/// What an `ArrayVec` holds where there is no frame.
impl Default for InnerFrame {
    fn default() -> InnerFrame {
        InnerFrame {
            boundary: 0,
            frame: Frame {
                pc: 0,
                sp: 0,
                bytes: ArrayVec::new(),
            },
        }
    }
}

/// The fast code from where it was entered with this SP up to its return. A request is a moment, whose handler
/// returns at once; nothing is open to it.
#[derive(Drop)]
pub(crate) struct FastForm {
    pub(crate) entered: u16,
    /// How many outputs it answers.
    pub(crate) outputs: u8,
}

impl SampleForm<u32, ArrayVec<InnerFrame, 8>, ()> for FastForm {
    ghost Given = { Unit {0} };

    ghost Told = { Unit {0} };

    ghost Shown = { Unit {0} };

    ghost harness = { λ x. fast_harness x.outputs x.entered };

    ghost fits = { λ notes n. array_vec_len notes + n ≤ 8 };

    ghost serves = { λ _ _. Unit {0} };

    #[inline(always)]
    fn ends<M: Mem>(&self, m: &Machine<M>, _moment: u32) -> bool {
        m.regs().sp > self.entered
    }

    #[inline(always)]
    fn goes_on_here<M: Mem>(&self, m: &Machine<M>) -> bool {
        m.regs().sp <= self.entered
    }

    #[inline(always)]
    fn place(&self, moment: &u32) -> (u32, u32) {
        (0, *moment)
    }

    fn take<M: Mem>(
        &self,
        m: &mut Machine<M>,
        _request: &u32,
        moment: u32,
        notes: &mut ArrayVec<InnerFrame, 8>,
    ) {
        let frame = m.interrupt(&[]);
        notes.push(InnerFrame {
            boundary: moment,
            frame,
        });
    }
}

impl SoundForm for FastForm {
    ghost Setting = { Inside };

    ghost Sample = { Unit {0} };

    ghost Request = { ℕ };

    ghost Told = { Unit {0} };

    ghost form = { λ x. fast_form x.flags x.outputs x.sp };

    ghost marks = { OnStackOnly };

    ghost open_to = { λ _. is_open_inside };

    ghost holds = { λ x. IsFastState x.image x.flags x.sp };

    ghost good = { λ _. AnyMoment };

    ghost own = { λ _. HoldsBytes };

    ghost sound = { λ x agree quiet. x.sound agree quiet };
}
