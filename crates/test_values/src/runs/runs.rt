//! Runs of the heater's firmware: what interrupts push, which pages are written, a session's positions,
//! and what ends a sample before it is answered. REV is at `$C031`, WAV at `$C03B`.
ghost use Rattle.std.specs.Prelude.{◌≤◌, IfOk};
ghost use Rattle.interrupt_plan.specs.Plans.{IsGood};

use arrayvec::ArrayVec;
use codegen::{Firmware, compile};
use cpu12_asm::ByteMap;
use cpu12_emul::ends::Frame;
use cpu12_isa::mem::Mem;
use cpu12_isa::pages::PageMem;
use fuzzy_meaning::heater;
use fz_list::List;
use fz_run::{Row, Session, run, run_on};
use interrupt_plan::{Plan, no_interrupts, read_plan};
use std::alloc::{AllocError, Global};
use std::process::Abort;
use std::test::Fail;
use trace_io::Sample;

fn firmware(alloc: Global) -> Result<Firmware, Fail>
    ensures { IfOk result (λ f. f.outputs ≤ 4) }
{
    match compile(alloc, &heater(alloc)?) {
        Ok(firmware) if firmware.outputs <= 4 => Ok(firmware),
        _ => Err(Fail::new("no firmware")),
    }
}

fn plan_of(alloc: Global, text: &[u8]) -> Result<Plan, Fail>
    ensures { IfOk result IsGood }
{
    if text.len() > 1_048_576 {
        return Err(Fail::new("too long"));
    }
    Ok(read_plan(alloc, text)?)
}

/// One sample of one input.
fn samples(alloc: Global, byte: u8) -> Result<Vec<Sample>, AllocError> {
    let mut bytes = ArrayVec::new();
    bytes.push(byte);
    let values = List::new(Vec::new(alloc));
    Ok(vec![in alloc; Sample { values, bytes }]?)
}

/// The run of the sample 64.
fn run_of(alloc: Global, plan: &Plan) -> Result<(Vec<Row>, PageMem), Fail>
    requires { IsGood plan.now }
{
    let samples = samples(alloc, 64)?;
    Ok(run_on(alloc, &firmware(alloc)?, samples.as_slice(), plan, 0)?)
}

/// The sum of the bytes that plans may write and of those of the stack.
fn sum_left(memory: &PageMem) -> u32 {
    let mut sum = 0u32;
    for at in 0x1800..0x2000u16 {
        sum = sum.wrapping_add(u32::from(memory.read(at)));
    }
    sum
}

/// A plan, the boundary, PC and SP of each frame with its bytes, and the sum of what is left.
struct Pushed {
    plan: &'static [u8],
    frames: &'static [(u32, u16, u16, &'static [u8])],
    left: u32,
}

static PUSHED: [Pushed; 2] = [
    Pushed {
        plan: b"1,17\n",
        frames: &[(
            17,
            0xC031,
            0x1FF5,
            &[0xC2, 0x00, 0xBF, 0xD8, 0x03, 0x11, 0x00, 0xC0, 0x31],
        )],
        left: 1070,
    },
    Pushed {
        plan: b"1,26\n1,26\n",
        frames: &[
            (
                26,
                0xC03C,
                0x1FEF,
                &[
                    0xC0, 0x01, 0x40, 0xD2, 0x01, 0x11, 0x03, 0xC0, 0x3C, 0x00, 0x00, 0x00, 0x00,
                    0x00, 0xBF,
                ],
            ),
            (
                26,
                0xC03C,
                0x1FEF,
                &[0xC0, 0x01, 0x40, 0xD2, 0x01, 0x11, 0x03, 0xC0, 0x3C],
            ),
        ],
        left: 1139,
    },
];

fn are_frames(rt: &impl Abort, frames: &[(u32, Frame)], wanted: &[(u32, u16, u16, &'static [u8])]) {
    assert!(rt; frames.len() == wanted.len());
    for ((boundary, frame), (at, pc, sp, bytes)) in frames.iter().zip(wanted.iter()) {
        assert!(rt; (*boundary, frame.pc, frame.sp) == (*at, *pc, *sp));
        assert!(rt; frame.bytes.as_slice() == *bytes);
    }
}

#[test]
fn interrupts_push_registers_and_sums(rt: HostRuntime) -> Result<(), Fail> {
    let alloc = rt.alloc();
    for want in &PUSHED {
        let (rows, memory) = run_of(alloc, &plan_of(alloc, want.plan)?)?;
        assert!(rt; rows.len() == 1);
        are_frames(&rt, rows[0].frames.as_slice(), want.frames);
        assert!(rt; sum_left(&memory) == want.left);
    }
    Ok(())
}

/// Whether a page, by its high byte, has a byte other than 0.
fn is_written(memory: &PageMem, page: u8) -> bool {
    (0..=255u8).any(|low| memory.read(u16::from_be_bytes([page, low])) != 0)
}

fn written_pages(alloc: Global, memory: &PageMem) -> Result<Vec<u8>, AllocError> {
    let mut pages = Vec::new(alloc);
    for page in 0..=255u8 {
        if is_written(memory, page) {
            pages.push(page)?;
        }
    }
    Ok(pages)
}

// READY with the input and the answer, the slots, the stack, the code, the tables, the singletons, the rule list and
// the vectors; and of what a request writes one byte on a page of its own, and one on the stack's.
static PAGES: [(&[u8], &[u8]); 2] = [
    (b"", &[0x10, 0x11, 0x1F, 0xC0, 0xD0, 0xD2, 0xD8, 0xFF]),
    (
        b"1,0,1800,FF,1FDF,01\n",
        &[0x10, 0x11, 0x18, 0x1F, 0xC0, 0xD0, 0xD2, 0xD8, 0xFF],
    ),
];

#[test]
fn pages_are_given_as_they_are_written(rt: HostRuntime) -> Result<(), Fail> {
    let alloc = rt.alloc();
    for (text, pages) in PAGES.iter() {
        let (_rows, memory) = run_of(alloc, &plan_of(alloc, text)?)?;
        assert!(rt; usize::from(memory.pages()) == pages.len());
        assert!(rt; written_pages(alloc, &memory)?.as_slice() == *pages);
    }
    Ok(())
}

/// The instructions and the steps of the sample 64, without interrupts.
fn counts(alloc: Global, firmware: &Firmware) -> Result<Option<(u32, u32)>, Fail>
    requires { firmware.now.outputs ≤ 4 }
{
    let samples = samples(alloc, 64)?;
    let rows = run(
        alloc,
        firmware,
        samples.as_slice(),
        &no_interrupts(alloc),
        0,
    )?;
    Ok(rows.first().map(|row| (row.instrs, row.steps)))
}

#[test]
fn a_sample_ends_where_its_bound_is_spent(rt: HostRuntime) -> Result<(), Fail> {
    let mut firmware = firmware(rt.alloc())?;
    firmware.step_bound = 35;
    assert!(rt; counts(rt.alloc(), &firmware)? == Some((27, 35)));
    Ok(())
}

#[test]
fn a_sample_ends_where_no_step_is_defined(rt: HostRuntime) -> Result<(), Fail> {
    let mut firmware = firmware(rt.alloc())?;
    firmware.image.bytes = ByteMap::new(rt.alloc());
    assert!(rt; counts(rt.alloc(), &firmware)? == Some((0, 0)));
    Ok(())
}

/// Advances by this many positions.
fn go_on(session: &mut Session<'_, PageMem>, count: u32) {
    for _ in 0..count {
        session.advance();
    }
}

#[test]
fn a_session_stands_at_each_position(rt: HostRuntime) -> Result<(), Fail> {
    let alloc = rt.alloc();
    let firmware = firmware(alloc)?;
    let samples = samples(alloc, 64)?;
    let plan = plan_of(alloc, b"1,26\n")?;
    let mut session: Session<PageMem> = Session::new(
        alloc,
        &firmware,
        samples.as_slice(),
        &plan,
        0,
    )?;
    assert!(rt; session.at() == (1, 0));
    go_on(&mut session, 14);
    assert!(rt; (session.at(), session.regs().pc) == ((1, 14), 0xC031));
    go_on(&mut session, 3);
    assert!(rt; (session.at(), session.regs().pc) == ((1, 17), 0xC031));
    go_on(&mut session, 9);
    let regs = session.regs();
    assert!(rt; (session.at(), regs.pc, regs.sp) == ((1, 26), 0xC03C, 0x1FF8));
    go_on(&mut session, 7);
    let regs = session.regs();
    assert!(rt; (session.at(), session.byte(0x1010)) == ((1, 33), 0x40));
    assert!(rt; (regs.pc, regs.a, regs.b) == (0xC04C, 0x00, 0x40));
    assert!(rt; (regs.x, regs.y, regs.sp) == (0x00FF, 0x0040, 0x1FFE));
    go_on(&mut session, 3);
    assert!(rt; (session.at(), session.advance()) == ((1, 36), false));
    let (rows, _memory) = session.finish();
    assert!(rt; rows.len() == 1);
    assert!(rt; rows[0].answers.as_slice() == [64].as_slice());
    Ok(())
}
