//! A boundary of a sample: what is taken there, and the step after it. What is done at each boundary is inlined
//! into the loop over all of them; what is seldom done is not.
ghost use Rattle.std.specs.Prelude.{ℕ, ◌≡◌, ◌≤◌, ◌<◌, ◌+◌, ◌-◌, ◌&&◌, nat_lt};
ghost use Rattle.std.specs.Prelude.{◌^◌, All, true, false, Ok, Err, length};
ghost use Rattle.cpu12_emul.specs.{declared.ends.Stepped.Stepped as Kind, Step.next_of, Step.is_part};
ghost use Rattle.cpu12_emul.specs.Step.{SameMachine};
ghost use Rattle.run_law.specs.Forms.{one_if};
ghost use Rattle.run_forms.specs.SampleRests.{before_takes, after_takes, after_state, at_end, stepped_counts};
ghost use Rattle.run_forms.specs.SampleRests.{Arrives, IsSteady};

use crate::form::SampleForm;
use crate::sample::{Counts, take_due};
use cpu12_emul::machine::Machine;
use cpu12_isa::mem::Mem;

/// Where a sample's run is, with what was counted of it.
#[derive(Drop)]
pub struct SampleState<U> {
    /// What was counted.
    pub counts: Counts<U>,
    /// How many more steps may be done.
    pub left: u32,
    /// Whether the sample is over.
    pub over: bool,
}

#[inline(always)]
fn one_if(b: bool) -> u32
    ensures one { result ≡ one_if b }
    ensures most { result ≤ 1 }
{
    if b { 1 } else { 0 }
}

/// 1 if requests are taken at this boundary, from request `before` up to `next`, and it is inside an instruction,
/// else 0.
#[inline(always)]
fn resumed_here(inside: bool, before: usize, next: usize) -> u32
    ensures one { result ≡ one_if (inside && nat_lt before next) }
    ensures most { result ≤ 1 }
{
    if inside && before < next { 1 } else { 0 }
}

/// Arrives at a boundary: the sample is over if the firmware waits or no step is left, else the requests that are
/// due are taken.
#[inline(always)]
pub(crate) fn come<M: Mem, A, U, R, F: SampleForm<A, U, R>>(
    m: &mut Machine<M>,
    form: &F,
    requests: &[A],
    st: &mut SampleState<U>,
)
    requires served { All (F.serves form.now) requests.now }
    requires arrives { Arrives F.fits requests.now st.old }
    ensures rest { after_takes m.old.flags (F.harness form.now) requests.now st.new m.new.state
        ≡ before_takes m.old.flags (F.harness form.now) requests.now st.old m.old.state }
    ensures moment { st.new.counts.moment ≡ st.old.counts.moment }
    ensures steady { IsSteady F.fits requests.now st.new }
    ensures machine { SameMachine m.old m.new }
{
    if form.ends(m, st.counts.moment) {
        st.counts.arrived = true;
        st.over = true;
        return;
    }
    if st.left == 0 {
        st.over = true;
        return;
    }
    let before = st.counts.next;
    take_due(m, form, requests, &mut st.counts);
    st.counts.resumed += resumed_here(st.counts.inside, before, st.counts.next);
    st.left -= 1;
}

/// Does a step from a boundary. Returns whether the step was defined.
#[inline(always)]
pub(crate) fn step_on<M: Mem, U>(m: &mut Machine<M>, st: &mut SampleState<U>) -> bool
    requires on { st.old.over ≡ false }
    requires counts { (st.old.counts.instrs ≤ st.old.counts.moment) × (st.old.counts.moment + 1 < 2 ^ 32) }
    ensures goes { result ≡ true → (kind : Kind) × (next_of m.old.flags m.old.state
        ≡ Ok (record { state = m.new.state; kind = kind }))
        × (st.new ≡ record st.old { counts = stepped_counts st.old.counts (is_part kind) }) }
    ensures stuck { result ≡ false → (byte : ℕ) × (next_of m.old.flags m.old.state ≡ Err byte) }
    ensures same { result ≡ false → (st.new ≡ st.old) × (m.new ≡ m.old) }
    ensures rest { result ≡ true
        → st.new
        ≡ record st.old {
          counts = record (st.old.counts) {
            moment = st.old.counts.moment + 1;
            inside = st.new.counts.inside;
            instrs = st.new.counts.instrs;
          };
        } }
    ensures counts { result ≡ true → st.new.counts.instrs ≤ st.new.counts.moment }
    ensures machine { SameMachine m.old m.new }
{
    match m.step() {
        Ok(kind) => {
            st.counts.inside = kind.is_part();
            st.counts.instrs += one_if(!st.counts.inside);
            st.counts.moment += 1;
            true
        }
        Err(_) => false,
    }
}

/// Advances to the next boundary of the sample. Returns whether there is one.
#[inline(always)]
pub(crate) fn pass<M: Mem, A, U, R, F: SampleForm<A, U, R>>(
    m: &mut Machine<M>,
    form: &F,
    requests: &[A],
    st: &mut SampleState<U>,
) -> bool
    requires served { All (F.serves form.now) requests.now }
    requires steady { IsSteady F.fits requests.now st.old }
    ensures goes { result ≡ true
        → after_takes m.old.flags (F.harness form.now) requests.now st.old m.old.state
        ≡ after_state m.old.state (after_takes m.old.flags (F.harness form.now) requests.now st.new m.new.state) }
    ensures ends { result ≡ false
        → after_takes m.old.flags (F.harness form.now) requests.now st.old m.old.state
        ≡ at_end (F.harness form.now).notes requests.now st.old.counts m.old.state }
    ensures same { result ≡ false → (st.new ≡ st.old) × (m.new ≡ m.old) }
    ensures moment { result ≡ true → st.new.counts.moment ≡ st.old.counts.moment + 1 }
    ensures steady { IsSteady F.fits requests.now st.new }
    ensures machine { SameMachine m.old m.new }
{
    if st.over {
        return false;
    }
    if !step_on(m, st) {
        return false;
    }
    come(m, form, requests, st);
    true
}
