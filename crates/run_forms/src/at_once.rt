//! Parts of REV and REVW that are done at once, where no interrupt comes at the boundaries between them.
ghost use Rattle.std.specs.Prelude.{◌≡◌, ◌≤◌, ◌<◌, ◌+◌, ◌^◌, List, drop};
ghost use Rattle.cpu12_parts.specs.State.{State};
ghost use Rattle.cpu12_emul.specs.Step.{SameMachine};
ghost use Rattle.run_forms.specs.Forms.{moment_in};
ghost use Rattle.run_forms.specs.SampleRests.{after_states, after_takes, after_parts, IsSteady, NoneDue};

use crate::boundary::SampleState;
use crate::form::SampleForm;
use cpu12_emul::machine::Machine;
use cpu12_isa::mem::Mem;

/// How many steps may be done before the next request is due: as many as are left, if there is none.
#[inline(always)]
fn steps_alone<A, U, R, F: SampleForm<A, U, R>>(
    form: &F,
    requests: &[A],
    st: &SampleState<U>,
) -> u32
    ensures left { result ≤ st.now.left }
    ensures none { NoneDue (moment_in (F.harness form.now).parts.place) st.now.counts.moment result
        (drop st.now.counts.next requests.now) }
{
    if st.counts.next < requests.len() {
        let due = form.place(&requests[st.counts.next]).1;
        if due <= st.counts.moment {
            return 0;
        }
        let before = due - st.counts.moment - 1;
        if before < st.left {
            return before;
        }
    }
    st.left
}

/// Counts parts after which no request is taken.
#[inline(always)]
fn count_parts<U>(st: &mut SampleState<U>, done: u32)
    requires left { done ≤ st.old.left }
    requires sum { st.old.counts.moment + st.old.left < 2 ^ 32 }
    ensures { st.new ≡ after_parts done st.old }
{
    st.counts.moment += done;
    st.left -= done;
}

/// Inside REV or REVW, does the parts that the machine can do at once from here, if no request is due after them.
#[inline(always)]
pub(crate) fn pass_parts<M: Mem, A, U, R, F: SampleForm<A, U, R>>(
    m: &mut Machine<M>,
    form: &F,
    requests: &[A],
    st: &mut SampleState<U>,
)
    requires steady { IsSteady F.fits requests.now st.old }
    ensures rest { (states : List State)
        × (after_takes m.old.flags (F.harness form.now) requests.now st.old m.old.state
        ≡ after_states states (after_takes m.old.flags (F.harness form.now) requests.now st.new m.new.state)) }
    ensures steady { IsSteady F.fits requests.now st.new }
    ensures machine { SameMachine m.old m.new }
{
    if st.over {
        return;
    }
    if !st.counts.inside {
        return;
    }
    if !form.goes_on_here(m) {
        return;
    }
    let most = steps_alone(form, requests, st);
    let done = m.rule_parts(most);
    count_parts(st, done);
}
