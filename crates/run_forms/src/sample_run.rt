//! The run of one sample.
ghost use Rattle.std.specs.Prelude.{◌≡◌, ◌≤◌, ◌<◌, ◌+◌, ◌-◌, ◌^◌, All, true, false, length, drop};
ghost use Rattle.cpu12_emul.specs.Step.{SameMachine};
ghost use Rattle.run_law.specs.Forms.{run_from};
ghost use Rattle.run_forms.specs.{Forms.plan_form, Rest.rest_at, Rest.counted_at, SampleRests.IsSteady};

use crate::at_once::pass_parts;
use crate::boundary::{SampleState, come, pass};
use crate::form::SampleForm;
use cpu12_emul::machine::Machine;
use cpu12_isa::mem::Mem;

/// Continues from a boundary of a sample to its end, under requests in order. The machine may be in any state
/// there; counts of what was done before, and room for the rest, are the caller's. What is counted then, and which
/// requests are left, is exactly what the run's definition states.
pub fn run_sample<M: Mem, A, U, R, F: SampleForm<A, U, R>>(
    m: &mut Machine<M>,
    form: &F,
    requests: &[A],
    st: &mut SampleState<U>,
)
    requires served { All (F.serves form.now) requests.now }
    requires on { (st.old.over ≡ false) × (st.old.counts.arrived ≡ false) }
    requires next { st.old.counts.next ≤ length requests.now }
    requires room { F.fits st.old.counts.notes
        (length requests.now - st.old.counts.next) }
    requires counts { (st.old.counts.instrs ≤ st.old.counts.moment) × (st.old.counts.resumed ≤ st.old.counts.moment) }
    requires sum { st.old.counts.moment + st.old.left < 2 ^ 32 }
    ensures counted { counted_at (F.harness form.now).notes st.new.counts m.new.state
        ≡ rest_at (F.harness form.now).notes (plan_form m.old.flags (F.harness form.now).parts) st.old.left requests.now
        st.old.counts m.old.state }
    ensures left { drop st.new.counts.next requests.now
        ≡ (run_from (plan_form m.old.flags (F.harness form.now).parts) st.old.left st.old.counts.moment
        st.old.counts.inside (drop st.old.counts.next requests.now) m.old.state).left }
    ensures next { st.old.counts.next ≤ st.new.counts.next }
    ensures steady { IsSteady F.fits requests.now st.new }
    ensures most { st.new.counts.moment ≤ st.old.counts.moment + st.old.left }
    ensures resumed { st.new.counts.arrived ≡ true → st.new.counts.resumed ≤ st.new.counts.moment }
    ensures machine { SameMachine m.old m.new }
{
    come(m, form, requests, st);
    while pass(m, form, requests, st) {
        pass_parts(m, form, requests, st);
    }
}
