//! The lines of faults of contents, put in parts that need no memory.
ghost use Rattle.std.specs.Prelude.{◌≡◌, ◌++◌};
ghost use Rattle.fz_shelf.specs.{Parts.part_text, Parts.newline, Puts.Puts};
ghost use Rattle.fz_status.specs.FaultLines.{asm_line, at_address, byte_or_none, cert_line, check_line, fast_line};
ghost use Rattle.fz_status.specs.FaultLines.{fcl_line, handler_line, image_line, leaf_line, load_kind, load_line};
ghost use Rattle.fz_status.specs.FaultLines.{not_reached_line, plan_line, records_line, syntax_line, trace_line};
ghost use Rattle.fz_status.specs.FaultLines.{trap_line, upset_line, usual_line, with_name, with_number};

use crate::{CertRefusal, FastFault, FclFault, ImageFault};
use box_tree::CertFault;
use cert_check::CheckFault;
use cpu12_asm::AsmFault;
use error_bound::LeafFault;
use error_certifier::NotReached;
use fcl_check::LoadFault;
use fcl_syntax::SyntaxFault;
use fz_shelf::{Failed, Part, Sink, put_parts};
use handler_check::HandlerFault;
use interrupt_plan::{PlanFault, UpsetFault};
use rule_layout::LayoutFault;
use srecord::SrecFault;
use trace_io::TraceFault;

/// Puts texts, each with an optional part after it, and the line feed.
macro_rules! write_line {
    ($err:ident; $($text:tt $($kind:ident $value:expr)?),+) => {
        put_parts($err, &[$(Part::Text($text), $(part!($kind $value),)?)+ Part::Text(b"\n")])
    };
}

macro_rules! part {
    (Number $n:expr) => { Part::Number($n as u64) };
    (Part $part:expr) => { $part };
    ($kind:ident $value:expr) => { Part::$kind($value) };
}

/// A text and the line feed.
pub(crate) fn put_text<F: Sink>(err: &mut F, text: &[u8]) -> Result<(), Failed>
    ensures { Puts F.told F.reliable err.old err.new (text.now ++ newline) result }
{
    write_line!(err; text)
}

/// A number between two texts, and the line feed.
pub(crate) fn put_number<'a, F: Sink>(
    err: &mut F,
    label: &'a [u8],
    n: u32,
    rest: &'a [u8],
) -> Result<(), Failed>
    ensures { Puts F.told F.reliable err.old err.new (with_number label.now n rest.now) result }
{
    write_line!(err; label Number n, rest)
}

/// A name after a text, and the line feed.
pub(crate) fn put_name<'a, F: Sink>(
    err: &mut F,
    label: &'a [u8],
    name: &'a str,
) -> Result<(), Failed>
    ensures { Puts F.told F.reliable err.old err.new (with_name label.now name.now) result }
{
    let name = name.as_bytes();
    write_line!(err; label, name)
}

/// The line of a trap: the byte at an address that begins no instruction.
pub(crate) fn put_trap<F: Sink>(err: &mut F, pc: u16, byte: u8) -> Result<(), Failed>
    ensures { Puts F.told F.reliable err.old err.new (trap_line pc byte) result }
{
    write_line!(err; b"trap: " Address pc, b" " Byte byte)
}

fn put_syntax<F: Sink>(err: &mut F, fault: &SyntaxFault) -> Result<(), Failed>
    ensures { Puts F.told F.reliable err.old err.new (syntax_line fault.now) result }
{
    match fault {
        SyntaxFault::BadByte(at) => put_number(err, b"fcl: at ", *at, b": bad byte"),
        SyntaxFault::OpenComment(at) => put_number(err, b"fcl: at ", *at, b": open comment"),
        SyntaxFault::Number(at, _) => put_number(err, b"fcl: at ", *at, b": number"),
        SyntaxFault::Expected(at) => put_number(err, b"fcl: at ", *at, b": expected"),
        SyntaxFault::Unsupported(at, code) => {
            write_line!(err; b"fcl: at " Number *at, b": unsupported " Number *code)
        }
        SyntaxFault::Deep(at) => put_number(err, b"fcl: at ", *at, b": too deep"),
        SyntaxFault::Memory => put_text(err, b"memory"),
    }
}

fn put_kind<F: Sink>(err: &mut F, at: u32, kind: u32) -> Result<(), Failed>
    ensures { Puts F.told F.reliable err.old err.new (load_kind at kind) result }
{
    write_line!(err; b"fcl: at " Number at, b": load " Number kind)
}

fn put_load<F: Sink>(err: &mut F, fault: &LoadFault) -> Result<(), Failed>
    ensures { Puts F.told F.reliable err.old err.new (load_line fault.now) result }
{
    match fault {
        LoadFault::Twice(at) => put_kind(err, *at, 1),
        LoadFault::Unknown(at) => put_kind(err, *at, 2),
        LoadFault::NoTerms(at) => put_kind(err, *at, 3),
        LoadFault::TooMany(at) => put_kind(err, *at, 4),
        LoadFault::PointsNotAscending(at) => put_kind(err, *at, 5),
        LoadFault::TermShape(at) => put_kind(err, *at, 6),
        LoadFault::TermOutside(at) => put_kind(err, *at, 7),
        LoadFault::BadRange(at) => put_kind(err, *at, 8),
        LoadFault::SingletonOutside(at) => put_kind(err, *at, 9),
        LoadFault::WeightOutside(at) => put_kind(err, *at, 10),
        LoadFault::WrongSide(at) => put_kind(err, *at, 11),
        LoadFault::MissingPart(at) => put_kind(err, *at, 12),
        LoadFault::Memory => put_text(err, b"memory"),
    }
}

pub(crate) fn put_fcl<F: Sink>(err: &mut F, fault: &FclFault) -> Result<(), Failed>
    ensures { Puts F.told F.reliable err.old err.new (fcl_line fault.now) result }
{
    match fault {
        FclFault::Syntax(fault) => put_syntax(err, fault),
        FclFault::Load(fault) => put_load(err, fault),
        FclFault::Layout(LayoutFault::TooManyRules(rule)) => {
            write_line!(err; b"fcl: too many rules at rule " Number *rule)
        }
        FclFault::Layout(LayoutFault::ListTooLong(n)) => {
            write_line!(err; b"fcl: list too long " Number *n)
        }
        FclFault::Layout(LayoutFault::Memory) => put_text(err, b"memory"),
    }
}

fn put_records<F: Sink>(err: &mut F, fault: &SrecFault) -> Result<(), Failed>
    ensures { Puts F.told F.reliable err.old err.new (records_line fault.now) result }
{
    match fault {
        SrecFault::BadLine(line) => put_number(err, b"image: line ", *line, b": bad line"),
        SrecFault::BadSum(line, got, wanted) => {
            write_line!(err; b"image: line " Number *line, b": bad sum " Byte *got, b" " Byte *wanted)
        }
        SrecFault::Wide(line) => put_number(err, b"image: line ", *line, b": wide"),
        SrecFault::Overlap(line) => put_number(err, b"image: line ", *line, b": overlap"),
        SrecFault::CountDiffers(got, wanted) => {
            write_line!(err; b"image: count " Number *got, b" " Number *wanted)
        }
        SrecFault::NoEnd => put_text(err, b"image: no end"),
        SrecFault::AfterEnd(line) => put_number(err, b"image: line ", *line, b": after end"),
        SrecFault::Memory => put_text(err, b"memory"),
    }
}

/// A byte, or that there is none.
fn byte_part(byte: Option<u8>) -> Part<'static>
    ensures { part_text result ≡ byte_or_none byte }
{
    match byte {
        Some(byte) => Part::Byte(byte),
        None => Part::Text(b"none"),
    }
}

pub(crate) fn put_image<F: Sink>(err: &mut F, fault: &ImageFault) -> Result<(), Failed>
    ensures { Puts F.told F.reliable err.old err.new (image_line fault.now) result }
{
    match fault {
        ImageFault::Records(fault) => put_records(err, fault),
        ImageFault::Byte(at, got, wanted) => {
            write_line!(err; b"image: " Address *at, b": " Part byte_part(*got),
                b", compile gives " Part byte_part(*wanted))
        }
        ImageFault::Start(got, wanted) => {
            write_line!(err; b"image: start " Address *got, b", compile gives " Address *wanted)
        }
    }
}

/// A leaf on that line does not hold.
fn put_leaf<F: Sink>(err: &mut F, line: u32, fault: &LeafFault) -> Result<(), Failed>
    ensures { Puts F.told F.reliable err.old err.new (leaf_line line fault.now) result }
{
    match fault {
        LeafFault::Weak(rule, k, low) => {
            write_line!(err; b"cert: line " Number line, b": weak rule " Number *rule, b" k " Number *k,
                b" low " Number low.0)
        }
        LeafFault::Still(rule) => {
            write_line!(err; b"cert: line " Number line, b": still rule " Number *rule)
        }
        LeafFault::Silent(rule, high) => {
            write_line!(err; b"cert: line " Number line, b": silent rule " Number *rule, b" high " Number high.0)
        }
        LeafFault::Loud(rule, byte) => {
            write_line!(err; b"cert: line " Number line, b": loud rule " Number *rule, b" byte " Number *byte)
        }
    }
}

fn put_check<F: Sink>(err: &mut F, fault: &CheckFault) -> Result<(), Failed>
    ensures { Puts F.told F.reliable err.old err.new (check_line fault.now) result }
{
    match fault {
        CheckFault::Outputs(got, wanted) => {
            write_line!(err; b"cert: outputs " Number *got, b" " Number *wanted)
        }
        CheckFault::BadCut(line) => put_number(err, b"cert: line ", *line, b": bad cut"),
        CheckFault::BadRule(line) => put_number(err, b"cert: line ", *line, b": bad rule"),
        CheckFault::Leaf(line, fault) => put_leaf(err, *line, fault),
        CheckFault::Unsure(line, output) => {
            write_line!(err; b"cert: line " Number *line, b": unsure output " Number *output)
        }
        CheckFault::TooManyCells(line) => {
            put_number(err, b"cert: line ", *line, b": too many cells")
        }
        CheckFault::Claimed(output, claimed, computed) => {
            write_line!(err; b"cert: output " Number *output, b" claims " Number *claimed,
                b", computed " Number *computed)
        }
        CheckFault::Memory => put_text(err, b"memory"),
    }
}

pub(crate) fn put_cert<F: Sink>(err: &mut F, fault: &CertRefusal) -> Result<(), Failed>
    ensures { Puts F.told F.reliable err.old err.new (cert_line fault.now) result }
{
    match fault {
        CertRefusal::Text(CertFault::BadLine(line)) => {
            write_line!(err; b"cert: line " Number *line, b": bad line")
        }
        CertRefusal::Text(CertFault::Early) => put_text(err, b"cert: early"),
        CertRefusal::Text(CertFault::Late(line)) => {
            write_line!(err; b"cert: line " Number *line, b": late")
        }
        CertRefusal::Text(CertFault::TooManyLeaves(line)) => {
            write_line!(err; b"cert: line " Number *line, b": too many leaves")
        }
        CertRefusal::Text(CertFault::Memory) => put_text(err, b"memory"),
        CertRefusal::Check(fault) => put_check(err, fault),
    }
}

pub(crate) fn put_trace<F: Sink>(err: &mut F, fault: &TraceFault) -> Result<(), Failed>
    ensures { Puts F.told F.reliable err.old err.new (trace_line fault.now) result }
{
    match fault {
        TraceFault::TooMany => put_text(err, b"trace: too many rows"),
        TraceFault::BadRow(row) => put_number(err, b"trace: row ", *row, b": bad row"),
        TraceFault::OutOfRange(row, input) => {
            write_line!(err; b"trace: row " Number *row, b": input " Number *input, b" out of range")
        }
        TraceFault::Memory => put_text(err, b"memory"),
    }
}

pub(crate) fn put_plan<F: Sink>(err: &mut F, fault: &PlanFault) -> Result<(), Failed>
    ensures { Puts F.told F.reliable err.old err.new (plan_line fault.now) result }
{
    match fault {
        PlanFault::TooMany => put_text(err, b"plan: too many rows"),
        PlanFault::BadRow(row) => put_number(err, b"plan: row ", *row, b": bad row"),
        PlanFault::NotFree(row, at) => {
            write_line!(err; b"plan: row " Number *row, b": not free " Address *at)
        }
        PlanFault::NotAscending(row) => put_number(err, b"plan: row ", *row, b": not ascending"),
        PlanFault::Memory => put_text(err, b"memory"),
    }
}

pub(crate) fn put_upset<F: Sink>(err: &mut F, fault: &UpsetFault) -> Result<(), Failed>
    ensures { Puts F.told F.reliable err.old err.new (upset_line fault.now) result }
{
    match fault {
        UpsetFault::TooMany => put_text(err, b"upset: too many rows"),
        UpsetFault::BadRow(row) => put_number(err, b"upset: row ", *row, b": bad row"),
        UpsetFault::NotTable(row, at) => {
            write_line!(err; b"upset: row " Number *row, b": not table " Address *at)
        }
        UpsetFault::NotAscending(row) => put_number(err, b"upset: row ", *row, b": not ascending"),
        UpsetFault::Memory => put_text(err, b"memory"),
    }
}

pub(crate) fn put_not_reached<F: Sink>(err: &mut F, fault: &NotReached) -> Result<(), Failed>
    ensures { Puts F.told F.reliable err.old err.new (not_reached_line fault.now) result }
{
    match fault {
        NotReached::Cell(bytes, output, bound) => {
            write_line!(err; b"not reached: cell" Numbers bytes.as_slice(), b" output " Number *output,
                b" bound " Number *bound)
        }
        NotReached::LeafLimit => put_text(err, b"not reached: leaf limit"),
        NotReached::Outputs(given, wanted) => {
            write_line!(err; b"not reached: outputs " Number *given, b" " Number *wanted)
        }
        NotReached::Memory => put_text(err, b"memory"),
    }
}

pub(crate) fn put_asm<F: Sink>(err: &mut F, fault: &AsmFault) -> Result<(), Failed>
    ensures { Puts F.told F.reliable err.old err.new (asm_line fault.now) result }
{
    match fault {
        AsmFault::BadLine(line) => put_number(err, b"asm: line ", *line, b": bad line"),
        AsmFault::UnknownName(line) => put_number(err, b"asm: line ", *line, b": unknown name"),
        AsmFault::Twice(line) => put_number(err, b"asm: line ", *line, b": twice"),
        AsmFault::BranchFar(line) => put_number(err, b"asm: line ", *line, b": branch far"),
        AsmFault::Range(line) => put_number(err, b"asm: line ", *line, b": range"),
        AsmFault::Overlap(line) => put_number(err, b"asm: line ", *line, b": overlap"),
        AsmFault::Memory => put_text(err, b"memory"),
    }
}

/// Why the instruction at an address is refused.
fn put_at<'a, F: Sink>(err: &mut F, at: u16, why: &'a [u8]) -> Result<(), Failed>
    ensures { Puts F.told F.reliable err.old err.new (at_address at why.now) result }
{
    write_line!(err; b"handler: " Address at, b": ", why)
}

pub(crate) fn put_handler<F: Sink>(err: &mut F, fault: &HandlerFault) -> Result<(), Failed>
    ensures { Puts F.told F.reliable err.old err.new (handler_line fault.now) result }
{
    match fault {
        HandlerFault::Empty => put_text(err, b"handler: empty"),
        HandlerFault::Outside(at) => put_at(err, *at, b"outside"),
        HandlerFault::Dead(at) => put_at(err, *at, b"dead"),
        HandlerFault::Trap(at) => put_at(err, *at, b"trap"),
        HandlerFault::Refused(at) => put_at(err, *at, b"refused"),
        HandlerFault::NotFree(at, to) => {
            write_line!(err; b"handler: " Address *at, b": not free " Address *to)
        }
        HandlerFault::Backward(at) => put_at(err, *at, b"backward"),
        HandlerFault::Target(at, to) => {
            write_line!(err; b"handler: " Address *at, b": target " Address *to)
        }
        HandlerFault::Height(at) => put_at(err, *at, b"height"),
        HandlerFault::Falls(at) => put_at(err, *at, b"falls"),
        HandlerFault::Memory => put_text(err, b"memory"),
    }
}

/// The line of a fault in a file of the fast block: the usual line with `fast ` in front.
pub(crate) fn put_fast<F: Sink>(err: &mut F, fault: &FastFault) -> Result<(), Failed>
    ensures { Puts F.told F.reliable err.old err.new (fast_line fault.now) result }
{
    put_parts(err, &[Part::Text(b"fast ")])?;
    put_usual(err, fault)
}

/// The usual line of the same fault, as for the file of any block.
fn put_usual<F: Sink>(err: &mut F, fault: &FastFault) -> Result<(), Failed>
    ensures { Puts F.told F.reliable err.old err.new (usual_line fault.now) result }
{
    match fault {
        FastFault::Fcl(fault) => put_fcl(err, fault),
        FastFault::Cert(fault) => put_cert(err, fault),
        FastFault::Trace(fault) => put_trace(err, fault),
    }
}
