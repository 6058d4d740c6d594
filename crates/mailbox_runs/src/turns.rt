//! Runs as sequences of turns.
ghost use Rattle.std.specs.Prelude.{ℕ, ◌≡◌, ◌≤◌, ◌<◌, ◌+◌, ◌-◌, ◌*◌, ◌^◌, ◌==◌, ◌&&◌, ◌++◌, [], ◌∷◌, true, false, min};
ghost use Rattle.std.specs.Prelude.{if◌then◌else◌, suc, All, length, map, drop, slice_index, vec_len, vec_capacity};
ghost use Rattle.cpu12_emul.specs.Step.{SameMachine};
ghost use Rattle.run_law.specs.{Forms.takes, Forms.is_empty, Following.asked};
ghost use Rattle.interrupt_plan.specs.Posts.{IsGoodPost, AreGoodPosts};
ghost use Rattle.firmware_code.specs.Uninterrupted.{values_in};
ghost use Rattle.mailbox_runs.specs.Turns.{up_to, behind, waiting};
ghost use Rattle.mailbox_runs.specs.Runs.{turn_form, answers_by, waits_by, input_bytes, answer_seen, turns_from};
ghost use Rattle.mailbox_runs.specs.Runs.{most_turns};
ghost use Rattle.mailbox_runs.specs.Counts.{notes_of, counted_at, with_rest};
ghost use Rattle.alone_runs.specs.Rows.{bytes_of};
ghost use Rattle.run_forms.specs.{Rest.with_before, Rooms.Fits, SampleRests.IsSteady};

use crate::form::MailboxForm;
use crate::run::Answer;
use crate::turn::turn;
use arrayvec::ArrayVec;
use cpu12_emul::machine::Machine;
use cpu12_isa::mem::Mem;
use firmware_code::Firmware;
use firmware_runs::laws::answers_are_values;
use firmware_runs::{answers, copy_of};
use interrupt_plan::Post;
use run_forms::{Counts, Notes, SampleState, take_due};
use trace_io::Sample;

/// The most turns: each takes at least one step.
const MOST_TURNS: u32 = 1_000_003;

/// The sample that these posts put last, or `before` if they put none.
fn posted_last(before: u32, posts: &[Post]) -> u32
    ensures { result ≡ waiting before posts.now }
{
    let mut waits = before;
    for post in posts {
        if post.sample != 0 {
            waits = post.sample;
        }
    }
    waits
}

/// How many of these posts, from the first on, have moments up to this one.
fn count_up_to(moment: u32, posts: &[Post]) -> usize
    ensures value { result ≡ length (up_to moment posts.now) }
    ensures few { result ≤ length posts.now }
{
    let mut count = 0;
    for post in posts {
        if post.moment > moment {
            return count;
        }
        count += 1;
    }
    count
}

/// The values of the outputs, in their order.
fn values_in<M: Mem>(firmware: &Firmware, m: &Machine<M>) -> ArrayVec<u16, 4>
    requires { (firmware.now.outputs ≤ 4) × (firmware.now.memory_map.outputs + 8 < 2 ^ 16) }
    ensures { result.items ≡ values_in firmware.now m.now.state }
{
    answers_are_values();
    answers(firmware, m)
}

/// The answer of a turn that ends here, to this sample.
fn answer_of<M: Mem>(
    m: &Machine<M>,
    firmware: &Firmware,
    samples: &[Sample],
    t: &Counts<Notes<()>>,
    sample: u32,
) -> Answer
    requires outputs { (firmware.now.outputs ≤ 4) × (firmware.now.memory_map.outputs + 8 < 2 ^ 16) }
    requires some { (1 ≤ sample) × (sample ≤ length samples.now) }
    ensures { answer_seen result ≡ record {
      sample = sample;
      at = t.now.moment;
      bytes = bytes_of (map input_bytes samples.now) sample;
      values = values_in firmware.now m.now.state;
      instrs = t.now.instrs;
    } }
{
    let bytes = copy_of(samples[sample as usize - 1].bytes.as_slice());
    Answer {
        sample,
        at: t.moment,
        bytes,
        answers: values_in(firmware, m),
        instrs: t.instrs,
    }
}

/// The end of a turn in which these posts were taken: appends its answer, if a sample waited when it began. The
/// answer is to the sample that was posted last before the copy. Returns which sample waits next, or 0 for none.
fn end_turn<M: Mem>(
    m: &Machine<M>,
    firmware: &Firmware,
    samples: &[Sample],
    taken: &[Post],
    begun: u32,
    t: &Counts<Notes<()>>,
    waits: u32,
    answers: &mut Vec<Answer>,
) -> u32
    requires outputs { (firmware.now.outputs ≤ 4) × (firmware.now.memory_map.outputs + 8 < 2 ^ 16) }
    requires waits { waits ≤ length samples.now }
    requires good { All (IsGoodPost (length samples.now)) taken.now }
    requires begun { begun + 2 < 2 ^ 32 }
    requires room { vec_len answers.old + min waits 1 ≤ vec_capacity answers.old }
    ensures answers { map answer_seen answers.new.items ≡ map answer_seen answers.old.items
        ++ answers_by firmware.now (map input_bytes samples.now) begun waits taken.now t.now.moment t.now.instrs
        m.now.state }
    ensures waits { result ≡ waits_by begun waits taken.now }
    ensures few { (result ≤ length samples.now) × (min result 1 ≤ length taken.now) }
    ensures len { vec_len answers.new ≡ vec_len answers.old + min waits 1 }
    ensures room { vec_capacity answers.old ≤ vec_capacity answers.new }
{
    if waits == 0 {
        return posted_last(0, taken);
    }
    let early = count_up_to(begun + 2, taken);
    let sample = posted_last(waits, &taken[..early]);
    answers
        .push(answer_of(m, firmware, samples, t, sample))
        .unwrap();
    posted_last(0, &taken[early..])
}

/// Begins a turn: takes the posts that are due where the code waits. Returns which sample waits then, where
/// `waits` did before.
fn look<M: Mem>(
    m: &mut Machine<M>,
    form: &MailboxForm,
    posts: &[Post],
    t: &mut Counts<Notes<()>>,
    waits: u32,
) -> u32
    requires good { AreGoodPosts (length form.now.samples.now) posts.now }
    requires next { t.old.next ≤ length posts.now }
    requires room { Fits t.old.notes (length posts.now - t.old.next) }
    requires waits { waits ≤ length form.now.samples.now }
    ensures takes { with_before (notes_of.frames t.old.notes) (notes_of.told t.old.notes)
        (takes (turn_form m.old.flags form.now.firmware.now (map input_bytes form.now.samples.now) form.now.begun)
        t.old.moment (drop t.old.next posts.now) m.old.state)
        ≡ record {
          state = m.new.state;
          frames = notes_of.frames t.new.notes;
          told = notes_of.told t.new.notes;
          left = drop t.new.next posts.now;
        } }
    ensures waits { result ≡ waiting waits
        (asked (takes
        (turn_form m.old.flags form.now.firmware.now (map input_bytes form.now.samples.now) form.now.begun) t.old.moment
        (drop t.old.next posts.now) m.old.state).told) }
    ensures few { (result ≤ length form.now.samples.now) × (min result 1 + t.old.next ≤ min waits 1 + t.new.next) }
    ensures next { (t.old.next ≤ t.new.next) × (t.new.next ≤ length posts.now) }
    ensures room { Fits t.new.notes (length posts.now - t.new.next) }
    ensures begins { t.new.moment ≡ t.old.moment }
    ensures fresh { (t.new.inside ≡ false) × (t.new.instrs ≡ 0) × (t.new.resumed ≡ t.old.resumed) }
    ensures machine { SameMachine m.old m.new }
{
    t.inside = false;
    t.instrs = 0;
    let before = t.next;
    take_due(m, form, posts, t);
    posted_last(waits, &posts[before..t.next])
}

/// Whether no sample is posted and no post is left.
fn is_over<M: Mem>(
    m: &Machine<M>,
    firmware: &Firmware,
    posts: &[Post],
    t: &Counts<Notes<()>>,
) -> bool
    requires { t.now.next ≤ length posts.now }
    ensures { result ≡ (is_empty (drop t.now.next posts.now)
        && (slice_index m.now.state.mem firmware.now.memory_map.sample_flag == 0)) }
{
    if t.next == posts.len() {
        m.peek(firmware.memory_map.sample_flag) == 0
    } else {
        false
    }
}

/// Runs the next turn, unless the run is over. Returns whether the code waits again.
fn next_turn<M: Mem>(
    m: &mut Machine<M>,
    firmware: &Firmware,
    samples: &[Sample],
    posts: &[Post],
    st: &mut SampleState<Notes<()>>,
    waits: &mut u32,
    answers: &mut Vec<Answer>,
    last: u32,
) -> bool
    requires outputs { (firmware.now.outputs ≤ 4) × (firmware.now.memory_map.outputs + 8 < 2 ^ 16) }
    requires good { AreGoodPosts (length samples.now) posts.now }
    requires steady { IsSteady Fits posts.now st.old }
    requires resumed { st.old.counts.resumed ≤ st.old.counts.moment }
    requires most { (st.old.counts.moment ≤ last) × (last ≤ 4000000000) }
    requires waits { waits.old ≤ length samples.now }
    requires answers { (vec_len answers.old + min waits.old 1 ≤ st.old.counts.next)
        × (length posts.now ≤ vec_capacity answers.old) }
    ensures goes { result ≡ true → (n : ℕ)
        → with_rest (map answer_seen answers.old.items) st.old.counts
        (turns_from m.old.flags firmware.now (map input_bytes samples.now) last (suc n) st.old.counts.moment waits.old
        (drop st.old.counts.next posts.now) m.old.state)
        ≡ with_rest (map answer_seen answers.new.items) st.new.counts
        (turns_from m.old.flags firmware.now (map input_bytes samples.now) last n st.new.counts.moment waits.new
        (drop st.new.counts.next posts.now) m.new.state) }
    ensures ends { result ≡ false → (n : ℕ)
        → with_rest (map answer_seen answers.old.items) st.old.counts
        (turns_from m.old.flags firmware.now (map input_bytes samples.now) last (suc n) st.old.counts.moment waits.old
        (drop st.old.counts.next posts.now) m.old.state)
        ≡ counted_at (map answer_seen answers.new.items) st.new.counts }
    ensures steady { result ≡ true → IsSteady Fits posts.now st.new }
    ensures resumed { result ≡ true → st.new.counts.resumed ≤ st.new.counts.moment }
    ensures most { st.new.counts.moment ≤ last }
    ensures waits { waits.new ≤ length samples.now }
    ensures answers { result ≡ true → (vec_len answers.new + min waits.new 1 ≤ st.new.counts.next)
        × (length posts.now ≤ vec_capacity answers.new) }
    ensures machine { SameMachine m.old m.new }
{
    let begun = st.counts.moment;
    let form = MailboxForm {
        firmware,
        samples,
        begun,
    };
    let seen = look(m, &form, posts, &mut st.counts, *waits);
    if is_over(m, firmware, posts, &st.counts) {
        return false;
    }
    let looked = st.counts.next;
    if !turn(m, &form, posts, st, last) {
        return false;
    }
    *waits = end_turn(
        m,
        firmware,
        samples,
        &posts[looked..st.counts.next],
        begun,
        &st.counts,
        seen,
        answers,
    );
    true
}

/// Continues to the run's end.
pub(crate) fn run_turns<M: Mem>(
    m: &mut Machine<M>,
    firmware: &Firmware,
    samples: &[Sample],
    posts: &[Post],
    st: &mut SampleState<Notes<()>>,
    answers: &mut Vec<Answer>,
    last: u32,
)
    requires outputs { (firmware.now.outputs ≤ 4) × (firmware.now.memory_map.outputs + 8 < 2 ^ 16) }
    requires good { AreGoodPosts (length samples.now) posts.now }
    requires begins { (st.old.counts.moment ≡ 0) × (st.old.counts.next ≡ 0) × (st.old.counts.resumed ≡ 0) }
    requires steady { IsSteady Fits posts.now st.old }
    requires most { last ≤ 4000000000 }
    requires answers { (vec_len answers.old ≡ 0) × (length posts.now ≤ vec_capacity answers.old) }
    ensures { counted_at (map answer_seen answers.new.items) st.new.counts
        ≡ with_rest (map answer_seen answers.old.items) st.old.counts
        (turns_from m.old.flags firmware.now (map input_bytes samples.now) last most_turns 0 0 posts.now m.old.state) }
{
    let mut waits = 0;
    let mut left = MOST_TURNS;
    while left > 0 {
        if !next_turn(m, firmware, samples, posts, st, &mut waits, answers, last) {
            return;
        }
        left -= 1;
    }
}
