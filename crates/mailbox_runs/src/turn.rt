//! A turn: from one arrival where the code waits to the next.
ghost use Rattle.std.specs.Prelude.{◌≡◌, ◌≤◌, ◌<◌, ◌+◌, ◌-◌, ◌^◌, All, true, false, length, map, drop};
ghost use Rattle.cpu12_emul.specs.Step.{SameMachine};
ghost use Rattle.run_law.specs.Forms.{run_from};
ghost use Rattle.run_forms.specs.{Rest.rest_at, Rest.counted_at, Rooms.Fits, SampleRests.IsSteady};
ghost use Rattle.interrupt_plan.specs.Posts.{IsGoodPost};
ghost use Rattle.mailbox_runs.specs.{Runs.input_bytes, Runs.turn_form, Counts.notes_of};

use crate::form::MailboxForm;
use cpu12_emul::machine::Machine;
use cpu12_isa::mem::Mem;
use interrupt_plan::Post;
use run_forms::{Notes, SampleState, run_sample};

/// Continues until the code waits again, or up to boundary `last`. Returns whether it waits.
pub(crate) fn turn<M: Mem>(
    m: &mut Machine<M>,
    form: &MailboxForm,
    posts: &[Post],
    st: &mut SampleState<Notes<()>>,
    last: u32,
) -> bool
    requires good { All (IsGoodPost (length form.now.samples.now)) posts.now }
    requires next { st.old.counts.next ≤ length posts.now }
    requires room { Fits st.old.counts.notes (length posts.now - st.old.counts.next) }
    requires counts { (st.old.counts.instrs ≤ st.old.counts.moment) × (st.old.counts.resumed ≤ st.old.counts.moment) }
    requires most { st.old.counts.moment ≤ last }
    ensures arrived { result ≡ st.new.counts.arrived }
    ensures counted { counted_at notes_of st.new.counts m.new.state
        ≡ rest_at notes_of
        (turn_form m.old.flags form.now.firmware.now (map input_bytes form.now.samples.now) form.now.begun)
        (last - st.old.counts.moment) posts.now st.old.counts m.old.state }
    ensures left { drop st.new.counts.next posts.now
        ≡ (run_from
        (turn_form m.old.flags form.now.firmware.now (map input_bytes form.now.samples.now) form.now.begun)
        (last - st.old.counts.moment) st.old.counts.moment st.old.counts.inside (drop st.old.counts.next posts.now)
        m.old.state).left }
    ensures next { st.old.counts.next ≤ st.new.counts.next }
    ensures steady { IsSteady Fits posts.now st.new }
    ensures most { st.new.counts.moment ≤ last }
    ensures resumed { result ≡ true → st.new.counts.resumed ≤ st.new.counts.moment }
    ensures machine { SameMachine m.old m.new }
{
    st.counts.arrived = false;
    st.left = last - st.counts.moment;
    st.over = false;
    run_sample(m, form, posts, st);
    st.counts.arrived
}
