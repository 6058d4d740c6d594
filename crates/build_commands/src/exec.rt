//! The command `exec IMAGE STEPS FLAGS`.
ghost use Rattle.std.specs.Prelude.{◌≡◌, ◌∷◌, [], IfOk};
ghost use Rattle.command_parts.specs.SeenOutputs.{IsResultOf};
ghost use Rattle.build_commands.specs.Exec.{ExecMakes, exec_in, exec_line};
ghost use Rattle.fz_status.specs.Words.{texts_of};

use command_parts::contents::Content;
use command_parts::images::image_of;
use command_parts::lines::told_registers;
use command_parts::output::Output;
use command_parts::words::{flags, number_in};
use cpu12_asm::Image;
use cpu12_emul::ends::RunEnd;
use cpu12_emul::machine::Machine;
use cpu12_isa::instr::Regs;
use cpu12_isa::pages::PageMem;
use fz_shelf::Line;
use fz_status::{Status, word};
use std::alloc::{AllocError, Global};
use std::fmt::Write;

/// `exec IMAGE STEPS FLAGS`
#[derive(Clone, Copy)]
pub struct Exec {
    /// The greatest number of steps to take.
    steps: u32,
    /// The byte from which the open flags are taken.
    flags: u8,
}

/// The index of the word IMAGE.
pub static INPUTS: [u32; 1] = [2];

/// The index of the word STEPS.
const STEPS: u32 = 3;

/// The index of the word FLAGS.
const FLAGS: u32 = 4;

impl Exec {
    /// The command of these words.
    pub fn of(words: &[String]) -> Option<Exec>
        ensures { result ≡ exec_in (texts_of words.now) }
    {
        let steps = number_in(word(words, STEPS))?.get();
        let flags = flags(word(words, FLAGS))?;
        Some(Exec { steps, flags })
    }

    /// Runs the image from reset until it branches to itself. The output has the registers.
    pub fn work(self, alloc: Global, records: &Content) -> Result<Output, Status>
        ensures { IsResultOf (ExecMakes self records.now) result }
    {
        let image = image_of(alloc, records)?;
        let mut machine = Machine::<PageMem>::new(alloc, &image, self.flags)?;
        match machine.run(self.steps) {
            RunEnd::Arrived(steps) => Ok(Output {
                lines: lines(alloc, &machine.regs(), steps)?,
                file: None,
            }),
            RunEnd::Trap(pc, byte) => Err(Status::Trap(pc, byte)),
            RunEnd::Budget(steps) => Err(Status::Budget(steps)),
        }
    }
}

/// The line of the registers, and that of the number of steps taken.
fn line_of(alloc: Global, regs: &Regs, steps: u32) -> Result<Line, AllocError>
    ensures { IfOk result (λ l. l ≡ exec_line regs.now steps) }
{
    let mut text = told_registers(alloc, regs)?;
    write!(&mut text, " steps {steps}")?;
    Line::of(text)
}

fn lines(alloc: Global, regs: &Regs, steps: u32) -> Result<Vec<Line>, AllocError>
    ensures { IfOk result (λ lines. lines.items ≡ exec_line regs.now steps ∷ []) }
{
    let mut lines = Vec::new(alloc);
    lines.push(line_of(alloc, regs, steps)?)?;
    Ok(lines)
}
