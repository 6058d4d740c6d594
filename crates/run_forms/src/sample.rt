//! What is taken at a boundary, and what is counted.
ghost use Rattle.std.specs.Prelude.{ℕ, ◌≡◌, ◌≤◌, ◌<◌, ◌+◌, ◌-◌, ◌++◌, ◌∷◌, [], true, All, length, drop};
ghost use Rattle.cpu12_emul.specs.{Step.SameMachine, Take.frame_seen};
ghost use Rattle.run_law.specs.Forms.{takes};
ghost use Rattle.run_forms.specs.{Forms.moment_in, Forms.plan_form, Rows.frames_seen, Rest.is_due, Rest.with_before};
ghost use Rattle.run_forms.specs.Rooms.{Fits};

use crate::form::SampleForm;
use cpu12_emul::ends::Frame;
use cpu12_emul::machine::Machine;
use cpu12_isa::mem::Mem;

/// What the requests of a sample push and report, in room that is allocated before its first step.
#[derive(Drop)]
pub struct Notes<U> {
    /// What each interrupt pushes, with its boundary.
    pub frames: Vec<(u32, Frame)>,
    /// What each handler reports.
    pub told: Vec<U>,
}

/// What was counted of a sample's run, whose notes are of type `U`.
#[derive(Drop)]
pub struct Counts<U> {
    /// Whether the firmware waited at the end.
    pub arrived: bool,
    /// How many steps were done.
    pub moment: u32,
    /// Whether the last of them was a part of an instruction that is not complete.
    pub inside: bool,
    /// How many requests were taken.
    pub next: usize,
    /// How many steps were plain instructions or last parts.
    pub instrs: u32,
    /// At how many boundaries inside an instruction an interrupt was taken.
    pub resumed: u32,
    /// The notes of its requests.
    pub notes: U,
}

impl<U> Notes<U> {
    /// Notes what an interrupt pushed at boundary `moment`, and what its handler reports.
    pub fn put(&mut self, moment: u32, frame: Frame, told: U)
        requires room { (n : ℕ) × Fits self.old (n + 1) }
        ensures frames { frames_seen self.new.frames.items
            ≡ frames_seen self.old.frames.items ++ (moment, frame_seen frame) ∷ [] }
        ensures told { self.new.told.items ≡ self.old.told.items ++ told ∷ [] }
        ensures room { (n : ℕ) → Fits self.old (n + 1) → Fits self.new n }
    {
        self.frames.push((moment, frame)).unwrap();
        self.told.push(told).unwrap();
    }
}

/// Whether the next request is due, and may be taken.
#[inline(always)]
fn is_due<M: Mem, A, U, R, F: SampleForm<A, U, R>>(
    m: &Machine<M>,
    form: &F,
    requests: &[A],
    t: &Counts<U>,
) -> bool
    ensures { result ≡ is_due (moment_in (F.harness form.now).parts.place) t.now.moment
        (drop t.now.next requests.now) m.now.state }
{
    if t.next < requests.len() {
        if m.may_interrupt() {
            form.place(&requests[t.next]).1 <= t.moment
        } else {
            false
        }
    } else {
        false
    }
}

/// Takes the next request.
#[inline(never)]
fn take_next<M: Mem, A, U, R, F: SampleForm<A, U, R>>(
    m: &mut Machine<M>,
    form: &F,
    requests: &[A],
    t: &mut Counts<U>,
)
    requires served { All (F.serves form.now) requests.now }
    requires due { is_due (moment_in (F.harness form.now).parts.place) t.old.moment
        (drop t.old.next requests.now) m.old.state ≡ true }
    requires room { F.fits t.old.notes (length requests.now - t.old.next) }
    ensures takes { with_before ((F.harness form.now).notes.frames t.old.notes)
        ((F.harness form.now).notes.told t.old.notes)
        (takes (plan_form m.old.flags (F.harness form.now).parts) t.old.moment
        (drop t.old.next requests.now) m.old.state)
        ≡ with_before ((F.harness form.now).notes.frames t.new.notes) ((F.harness form.now).notes.told t.new.notes)
        (takes (plan_form m.old.flags (F.harness form.now).parts) t.old.moment
        (drop t.new.next requests.now) m.new.state) }
    ensures next { t.new.next ≡ t.old.next + 1 }
    ensures within { t.new.next ≤ length requests.now }
    ensures room { F.fits t.new.notes (length requests.now - t.new.next) }
    ensures rest { t.new ≡ record t.old { next = t.new.next; notes = t.new.notes } }
    ensures machine { SameMachine m.old m.new }
{
    form.take(m, &requests[t.next], t.moment, &mut t.notes);
    t.next += 1;
}

/// Takes all requests that are due.
#[inline(always)]
pub fn take_due<M: Mem, A, U, R, F: SampleForm<A, U, R>>(
    m: &mut Machine<M>,
    form: &F,
    requests: &[A],
    t: &mut Counts<U>,
)
    requires served { All (F.serves form.now) requests.now }
    requires next { t.old.next ≤ length requests.now }
    requires room { F.fits t.old.notes (length requests.now - t.old.next) }
    ensures takes { with_before ((F.harness form.now).notes.frames t.old.notes)
        ((F.harness form.now).notes.told t.old.notes)
        (takes (plan_form m.old.flags (F.harness form.now).parts) t.old.moment
        (drop t.old.next requests.now) m.old.state)
        ≡ record {
          state = m.new.state;
          frames = (F.harness form.now).notes.frames t.new.notes;
          told = (F.harness form.now).notes.told t.new.notes;
          left = drop t.new.next requests.now;
        } }
    ensures next { (t.old.next ≤ t.new.next) × (t.new.next ≤ length requests.now) }
    ensures room { F.fits t.new.notes (length requests.now - t.new.next) }
    ensures rest { t.new ≡ record t.old { next = t.new.next; notes = t.new.notes } }
    ensures machine { SameMachine m.old m.new }
{
    while is_due(m, form, requests, t) {
        take_next(m, form, requests, t);
    }
}
