//! The command `gen NUMBER`: the certified run of the workload that a number draws, large enough for
//! measurements.
ghost use Rattle.std.specs.Prelude.{◌≡◌, ◌≤◌, length, map, sum, IfOk};
ghost use Rattle.fuzzy_meaning.specs.Blocks.{IsValid};
ghost use Rattle.byte_scaling.specs.declared.width.Width.TheVariants.{Byte};
ghost use Rattle.rule_layout.specs.Layouts.{IsWithinLimits};
ghost use Rattle.alone_code.specs.Firmwares.{IsFirmwareOf};
ghost use Rattle.alone_runs.specs.Rows.{row_seen};
ghost use Rattle.fz_status.specs.Words.{texts_of};
ghost use Rattle.command_parts.specs.SeenOutputs.{IsResultOf};
ghost use Rattle.run_commands.specs.Generate.{GenerateMakes, generate_in, generate_lines};
ghost use Rattle.run_commands.specs.Generate.{frames_of, resumed_of, answers_of};
ghost use Rattle.workload.specs.Workloads.{IsWorkload};

use alone_code::compile;
use alone_runs::{Row, run};
use box_tree::CertFormat;
use command_parts::certs::halved;
use command_parts::lines::push_errors;
use command_parts::output::Output;
use command_parts::words::number32_in;
use error_certifier::Targets;
use firmware_code::Firmware;
use fuzzy_meaning::Block;
use fz_shelf::Line;
use fz_status::{Status, word};
use rule_layout::LayoutFault;
use rule_layout::laws::limits_have_no_fault;
use run_reports::laws::answers_are_reported;
use run_reports::row_lines::push_labelled;
use std::alloc::{AllocError, Global};
use workload::Workload;
use workload::laws::drawn_blocks_are_within_limits;

/// `gen NUMBER`.
#[derive(Clone, Copy)]
pub struct Generate {
    number: u32,
}

/// It reads no file.
pub static INPUTS: [u32; 0] = [];

/// The index of the word NUMBER.
const NUMBER: u32 = 2;

/// The greatest error allowed for an output, in millionths of its range.
const TARGET: u32 = 400_000;

/// The byte from which the open flags are taken.
const FLAGS: u8 = 0;

/// Sums over all rows. Their type is wide enough for any number of rows.
#[derive(Clone, Copy)]
struct Sums {
    frames: u128,
    resumed: u128,
    answers: u128,
}

impl Generate {
    /// The command of these words.
    pub fn of(words: &[String]) -> Option<Generate>
        ensures { result ≡ generate_in (texts_of words.now) }
    {
        let number = number32_in(word(words, NUMBER))?;
        Some(Generate { number })
    }

    /// Draws the workload of the number, finds its block's certificate, and runs its samples under its
    /// interrupts. The output has the sums of the run.
    pub fn work(self, alloc: Global) -> Result<Output, Status>
        ensures { IsResultOf (GenerateMakes self) result }
    {
        let workload = workload::generate(alloc, self.number)?;
        self.output(alloc, &workload)
    }

    /// The output of the workload's run, or why halving its block stops.
    fn output(self, alloc: Global, workload: &Workload) -> Result<Output, Status>
        requires { IsWorkload self.number workload.now.text.items workload.now.trace.items
            workload.now.plan.items workload.now.block workload.now.samples.items workload.now.requests }
        ensures { IsResultOf (GenerateMakes self) result }
    {
        answers_are_reported();
        drawn_blocks_are_within_limits();
        let block = &workload.block;
        let firmware = compiled(alloc, block)?;
        let target = Targets::All(TARGET);
        let cert = halved(alloc, CertFormat::NAMED, block, &target)?;
        let samples = workload.samples.as_slice();
        let rows = run(alloc, &firmware, samples, &workload.requests, FLAGS)?;
        let errors = cert.claims.as_slice();
        let lines = lines(alloc, self.number, errors, firmware.instr_bound, &rows)?;
        Ok(Output { lines, file: None })
    }
}

/// The firmware of a block whose rules can be laid out.
fn compiled(alloc: Global, block: &Block) -> Result<Firmware, AllocError>
    requires valid { IsValid block.now }
    requires limits { IsWithinLimits block.now }
    ensures firmware { IfOk result (IsFirmwareOf block.now) }
    ensures width { IfOk result (λ f. f.width ≡ Byte) }
{
    limits_have_no_fault();
    match compile(alloc, block) {
        Ok(firmware) => Ok(firmware),
        Err(fault) => {
            let is_memory = matches!(&fault, LayoutFault::Memory);
            prove!(is_memory);
            Err(AllocError)
        }
    }
}

impl Sums {
    fn over(rows: &[Row]) -> Sums
        ensures frames { result.frames ≡ frames_of (map row_seen rows.now) }
        ensures resumed { result.resumed ≡ resumed_of (map row_seen rows.now) }
        ensures answers { result.answers ≡ answers_of (map row_seen rows.now) }
    {
        let mut sums = Sums {
            frames: 0,
            resumed: 0,
            answers: 0,
        };
        for row in rows {
            sums.frames += row.frames.len() as u128;
            let resumed = u64::from(row.resumed);
            sums.resumed += u128::from(resumed);
            sums.answers += u128::from(sum_of(row.answers.as_slice()));
        }
        sums
    }
}

fn sum_of(answers: &[u16]) -> u32
    requires { length answers.now ≤ 4 }
    ensures { result ≡ sum answers.now }
{
    let mut sum = 0;
    for answer in answers {
        sum += u32::from(*answer);
    }
    sum
}

/// The lines of the number, the errors, the bound on instructions, the number of samples, and the sums.
fn lines(
    alloc: Global,
    number: u32,
    errors: &[u32],
    bound: u32,
    rows: &[Row],
) -> Result<Vec<Line>, AllocError>
    ensures { IfOk result (λ lines. lines.items
        ≡ generate_lines number errors.now bound (map row_seen rows.now)) }
{
    let sums = Sums::over(rows);
    let mut lines = Vec::new(alloc);
    push_labelled(alloc, &mut lines, "gen ", u128::from(number))?;
    push_errors(alloc, &mut lines, "error ", errors)?;
    push_labelled(alloc, &mut lines, "instructions ", u128::from(bound))?;
    push_labelled(alloc, &mut lines, "samples ", rows.len() as u128)?;
    push_labelled(alloc, &mut lines, "frames ", sums.frames)?;
    push_labelled(alloc, &mut lines, "resumed ", sums.resumed)?;
    push_labelled(alloc, &mut lines, "sum ", sums.answers)?;
    Ok(lines)
}
