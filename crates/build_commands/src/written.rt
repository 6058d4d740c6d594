//! The output of commands that make firmware and images: the records for OUT, and lines.
ghost use Rattle.std.specs.Prelude.{◌≡◌, length, IfErr, IfOk};
ghost use Rattle.command_parts.specs.SeenOutputs.{seen_output};
ghost use Rattle.build_commands.specs.Written.{WritesImage, compile_lines};

use command_parts::lines::labelled;
use command_parts::output::Output;
use cpu12_asm::Image;
use firmware_code::Firmware;
use fz_shelf::Line;
use fz_status::Status;
use std::alloc::{AllocError, Global};

/// The index of the word OUT after the name of one file.
const OUT: u32 = 3;

/// The records of an image, for the file that the word at this index names, and these lines.
pub(crate) fn written_image(
    alloc: Global,
    image: &Image,
    place: u32,
    lines: Vec<Line>,
) -> Result<Output, Status>
    ensures writes { IfOk result (λ work. WritesImage image.now place (lines.items) (seen_output work)) }
    ensures memory { IfErr result (λ status. status ≡ Status.Memory) }
{
    let records = srecord::write(alloc, image)?;
    Ok(Output {
        lines,
        file: Some((place, records)),
    })
}

/// The records of the firmware's image, for OUT, and the firmware's lines.
pub(crate) fn written_firmware(alloc: Global, firmware: &Firmware) -> Result<Output, Status>
    ensures writes { IfOk result (λ work. WritesImage firmware.now.image 3
        (compile_lines firmware.now.instr_bound firmware.now.step_bound (length firmware.now.image.bytes))
        (seen_output work)) }
    ensures memory { IfErr result (λ status. status ≡ Status.Memory) }
{
    let lines = lines(alloc, firmware)?;
    written_image(alloc, &firmware.image, OUT, lines)
}

/// The lines of the bounds on instructions and steps, and of the number of the image's bytes.
fn lines(alloc: Global, firmware: &Firmware) -> Result<Vec<Line>, AllocError>
    ensures { IfOk result (λ lines. lines.items ≡
        compile_lines firmware.now.instr_bound firmware.now.step_bound (length firmware.now.image.bytes)) }
{
    let mut lines = Vec::new(alloc);
    lines.push(labelled(alloc, "instructions ", u128::from(firmware.instr_bound))?)?;
    lines.push(labelled(alloc, "steps ", u128::from(firmware.step_bound))?)?;
    lines.push(labelled(alloc, "bytes ", firmware.image.bytes.len() as u128)?)?;
    Ok(lines)
}
