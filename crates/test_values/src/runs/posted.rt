//! Runs of the heater's mailbox form under posts: which samples are answered, where, and what interrupts push.
ghost use Rattle.std.specs.Prelude.{◌≤◌, ◌<◌, ◌+◌, ◌^◌, IfOk};
ghost use Rattle.interrupt_plan.specs.Posts.{AreGoodPosts};

use arrayvec::ArrayVec;
use codegen::{Firmware, compile_post};
use fuzzy_meaning::heater;
use fz_list::List;
use fz_run::run_posts;
use interrupt_plan::{Posts, read_posts};
use std::alloc::{AllocError, Global};
use std::test::Fail;
use trace_io::Sample;

fn firmware(alloc: Global) -> Result<Firmware, Fail>
    ensures { IfOk result (λ f. (f.outputs ≤ 4) × (f.memory_map.outputs + 8 < 2 ^ 16)) }
{
    match compile_post(alloc, &heater(alloc)?) {
        Ok(firmware) if firmware.outputs <= 4 && firmware.memory_map.outputs < 0x8000 => Ok(
            firmware,
        ),
        _ => Err(Fail::new("no firmware")),
    }
}

fn posts_of(alloc: Global, text: &[u8]) -> Result<Posts, Fail>
    ensures { IfOk result (AreGoodPosts 2) }
{
    if text.len() > 1_048_576 {
        return Err(Fail::new("too long"));
    }
    Ok(read_posts(alloc, text, 2)?)
}

/// A sample of one input.
fn sample(alloc: Global, byte: u8) -> Sample {
    let mut bytes = ArrayVec::new();
    bytes.push(byte);
    let values = List::new(Vec::new(alloc));
    Sample { values, bytes }
}

/// Posts of the samples 64 and 0; the sample, boundary and value of each answer; and the boundary, PC and SP
/// of each frame.
struct Row {
    posts: &'static [u8],
    answers: &'static [(u32, u32, u16)],
    frames: &'static [(u32, u16, u16)],
}

static ROWS: [Row; 4] = [
    // The second comes while the first is copied.
    Row {
        posts: b"0,1\n3,2\n",
        answers: &[(1, 39, 64), (2, 78, 0)],
        frames: &[(0, 0xC008, 0x1FF7), (6, 0xC01A, 0x1FF7)],
    },
    // It comes before the copy, in place of the first.
    Row {
        posts: b"0,1\n2,2\n",
        answers: &[(2, 39, 0)],
        frames: &[(0, 0xC008, 0x1FF7), (2, 0xC00D, 0x1FF7)],
    },
    // Idle turns, and a post of no sample.
    Row {
        posts: b"3,1,1800,FF\n5,0\n",
        answers: &[(1, 43, 64)],
        frames: &[(3, 0xC00B, 0x1FF7), (5, 0xC00B, 0x1FF7)],
    },
    Row {
        posts: b"",
        answers: &[],
        frames: &[],
    },
];

#[test]
fn heater_under_posts(rt: HostRuntime) -> Result<(), Fail> {
    let alloc = rt.alloc();
    let firmware = firmware(alloc)?;
    let samples = [sample(alloc, 64), sample(alloc, 0)];
    for row in &ROWS {
        let posts = posts_of(alloc, row.posts)?;
        let run = run_posts(alloc, &firmware, &samples, &posts, 0)?;
        assert_eq!(rt; run.answers.len(), row.answers.len());
        for (answer, want) in run.answers.iter().zip(row.answers) {
            assert_eq!(rt; (answer.sample, answer.at), (want.0, want.1));
            assert!(rt; answer.answers.as_slice() == [want.2].as_slice());
            assert_eq!(rt; answer.instrs, 31);
        }
        assert_eq!(rt; run.frames.len(), row.frames.len());
        for (frame, want) in run.frames.iter().zip(row.frames) {
            assert_eq!(rt; (frame.0, frame.1.pc, frame.1.sp), *want);
            assert_eq!(rt; frame.1.bytes.len(), 9);
        }
        assert_eq!(rt; run.resumed, 0);
    }
    Ok(())
}
