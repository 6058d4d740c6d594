//! The run of a firmware under posts.
ghost use Rattle.std.specs.Prelude.{◌≡◌, ◌≤◌, ◌<◌, ◌+◌, ◌*◌, ◌^◌, false, length, map, min, IfOk};
ghost use Rattle.run_forms.specs.Rows.{frames_seen};
ghost use Rattle.interrupt_plan.specs.Posts.{AreGoodPosts};
ghost use Rattle.mailbox_runs.specs.Answering.{AnswersItsPosts};
ghost use Rattle.mailbox_runs.specs.Runs.{run_under_posts, last_boundary, input_bytes, answer_seen};

use crate::form::MailboxForm;
use crate::laws::posts_are_answered;
use crate::turn::turn;
use crate::turns::run_turns;
use arrayvec::ArrayVec;
use cpu12_emul::ends::Frame;
use cpu12_emul::machine::Machine;
use cpu12_isa::pages::PageMem;
use firmware_code::Firmware;
use fz_list::Memory;
use interrupt_plan::Posts;
use run_forms::{Counts, Notes, fresh_sample, room_for};
use std::alloc::Global;
use trace_io::Sample;

/// The last boundary that a run may reach, whatever its firmware is.
const LAST_BOUNDARY: u32 = 4_000_000_000;

/// The last moment of a post.
const LAST_MOMENT: u32 = 1_000_000;

/// The answer of a turn.
#[derive(Drop)]
pub struct Answer {
    /// Which sample, counted from 1.
    pub sample: u32,
    /// The boundary where the turn ends, counted from the first arrival where the firmware waits.
    pub at: u32,
    /// The bytes of the inputs.
    pub bytes: ArrayVec<u8, 8>,
    /// The answers: bytes, or words where the firmware's answers are wide.
    pub answers: ArrayVec<u16, 4>,
    /// How many instructions the turn took: steps that were plain instructions, or the last part of REV, REVW or
    /// WAV.
    pub instrs: u32,
}

/// The results of a run under posts.
#[derive(Drop)]
pub struct PostRun {
    /// In the order of the turns.
    pub answers: Vec<Answer>,
    /// What each interrupt pushed, with its boundary.
    pub frames: Vec<(u32, Frame)>,
    /// At how many boundaries an interrupt was taken after a part of REV, REVW or WAV that was not its last.
    pub resumed: u32,
}

/// The results of a run that ends here.
fn run_of(answers: Vec<Answer>, t: Counts<Notes<()>>) -> PostRun
    ensures { result ≡ record { answers = answers; frames = t.notes.frames; resumed = t.resumed } }
{
    let Counts {
        arrived: _,
        moment: _,
        inside: _,
        next: _,
        instrs: _,
        resumed,
        notes,
    } = t;
    let Notes { frames, told: _ } = notes;
    PostRun {
        answers,
        frames,
        resumed,
    }
}

/// The last boundary of a run.
fn last_boundary(firmware: &Firmware) -> u32
    ensures value { result ≡ last_boundary firmware.now }
    ensures most { result ≤ 4000000000 }
{
    let turns = u64::from(firmware.step_bound) * 2;
    (turns + u64::from(LAST_MOMENT)).min(u64::from(LAST_BOUNDARY)) as u32
}

/// Runs the mailbox form of a firmware under posts of these samples. Bits of `flags` supply the flags that the
/// CPU12 Reference Manual leaves undefined. All memory is allocated before the first step: room for one answer and
/// one frame for each post.
pub fn run_posts(
    alloc: Global,
    firmware: &Firmware,
    samples: &[Sample],
    posts: &Posts,
    flags: u8,
) -> Result<PostRun, Memory>
    requires outputs { (firmware.now.outputs ≤ 4) × (firmware.now.memory_map.outputs + 8 < 2 ^ 16) }
    requires posts { AreGoodPosts (length samples.now) posts.now }
    ensures answers { IfOk result (λ r. map answer_seen r.answers.items
        ≡ (run_under_posts firmware.now (map input_bytes samples.now) posts.now flags).answers) }
    ensures frames { IfOk result (λ r. frames_seen r.frames.items
        ≡ (run_under_posts firmware.now (map input_bytes samples.now) posts.now flags).frames) }
    ensures resumed { IfOk result (λ r. r.resumed
        ≡ (run_under_posts firmware.now (map input_bytes samples.now) posts.now flags).resumed) }

    // For the mailbox firmware of a block this run is that of its turns without interrupts.
    ensures by_turns { IfOk result (λ r. AnswersItsPosts firmware.now flags (map input_bytes samples.now) posts.now
        (run_under_posts firmware.now (map input_bytes samples.now) posts.now flags)) }
{
    posts_are_answered();
    let Ok(mut answers) = Vec::with_capacity(alloc, posts.len()) else {
        return Err(Memory);
    };
    let room = room_for(alloc, posts.len())?;
    let mut m: Machine<PageMem> = Machine::new(alloc, &firmware.image, flags)?;
    let none = room_for(alloc, 0)?;
    let form = MailboxForm {
        firmware,
        samples,
        begun: 0,
    };
    let mut arrival = fresh_sample(0, none);
    let waits = turn(&mut m, &form, &[], &mut arrival, firmware.step_bound);
    let mut st = fresh_sample(0, room);
    if waits {
        let last = last_boundary(firmware);
        run_turns(
            &mut m,
            firmware,
            samples,
            posts.as_slice(),
            &mut st,
            &mut answers,
            last,
        );
    }
    Ok(run_of(answers, st.counts))
}
