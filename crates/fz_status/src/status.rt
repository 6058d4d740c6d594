//! How a call of the program ends.
ghost use Rattle.std.specs.Prelude.{◌≡◌};
ghost use Rattle.fz_status.specs.Refusals.{Tells, status_of};
ghost use Rattle.fz_status.specs.declared.status.FclFault.TheVariants as fcl;
ghost use Rattle.fz_status.specs.declared.status.ImageFault.TheVariants as image;
ghost use Rattle.fz_status.specs.declared.status.Status.TheVariants as status;

use box_tree::CertFault;
use cert_check::{CheckFault, TextFault};
use cpu12_asm::AsmFault;
use error_certifier::NotReached;
use fcl_check::LoadFault;
use fcl_syntax::SyntaxFault;
use fz_list::Memory;
use handler_check::HandlerFault;
use interrupt_plan::{PlanFault, UpsetFault};
use rule_layout::LayoutFault;
use srecord::SrecFault;
use std::alloc::AllocError;
use trace_io::TraceFault;

/// How a call of the program ends. A word is given by its index, the program's name being 0.
#[derive(Drop)]
pub enum Status {
    /// All input was read and accepted, and all lines were put.
    Ok,
    /// The words are not those of a command.
    Usage,
    /// The file of that word could not be read.
    ReadFault(u32),
    /// A line could not be put, or a file could not be written.
    WriteFault,
    /// The text spells no block that can be laid out.
    Fcl(FclFault),
    /// The text is no image, or not the image of the block's firmware.
    Image(ImageFault),
    /// The text is no certificate that the block accepts.
    Cert(CertRefusal),
    /// The text is no trace of the block.
    Trace(TraceFault),
    /// The text is no plan.
    Plan(PlanFault),
    /// The text is no list of upsets of the image.
    Upset(UpsetFault),
    /// Halving gives no certificate for the target. The fault is never `NotReached::Memory`.
    NotReached(NotReached),
    /// Out of memory.
    Memory,
    /// The file of that word has more than 1048576 bytes.
    TooLong(u32),
    /// The text is no source of an image.
    Asm(AsmFault),
    /// The byte at an address is no instruction.
    Trap(u16, u8),
    /// That many steps were taken, and the image did not come to a branch to itself.
    Budget(u32),
    /// The image is no handler. The fault is never `HandlerFault::Memory`.
    Handler(HandlerFault),
    /// That line of the script is no order.
    Script(u32),
    /// A file of the fast block is refused.
    Fast(FastFault),
}

/// Why a file of the fast block is refused, by a command that also reads those of a slow block.
#[derive(Drop)]
pub enum FastFault {
    /// The text spells no block that can be laid out.
    Fcl(FclFault),
    /// The text is no certificate that the block accepts.
    Cert(CertRefusal),
    /// The text is no trace of the block.
    Trace(TraceFault),
}

/// Why a text gives no firmware. It never carries lack of memory.
#[derive(Drop)]
pub enum FclFault {
    /// The text is not of the grammar, or uses a part that is left out.
    Syntax(SyntaxFault),
    /// The text breaks a rule on its names, terms or ranges.
    Load(LoadFault),
    /// The rules do not fit the image.
    Layout(LayoutFault),
}

/// Why an image is refused. It never carries lack of memory.
#[derive(Drop)]
pub enum ImageFault {
    /// The text gives no image.
    Records(SrecFault),
    /// At an address the image has the first byte, or none, where the firmware has the second, or none.
    Byte(u16, Option<u8>, Option<u8>),
    /// The image has the first start where the firmware has the second.
    Start(u16, u16),
}

/// Why a certificate is refused. It never carries lack of memory.
#[derive(Drop)]
pub enum CertRefusal {
    /// The text spells no certificate.
    Text(CertFault),
    /// The certificate is not accepted.
    Check(CheckFault),
}

impl From<AllocError> for Status {
    ghost from_gives = { λ _ s. s ≡ status.Memory };

    fn from(_: AllocError) -> Status {
        Status::Memory
    }
}

impl From<Memory> for Status {
    ghost from_gives = { λ _ s. s ≡ status.Memory };

    fn from(_: Memory) -> Status {
        Status::Memory
    }
}

/// The status that carries a fault, or `Memory` where the fault is its own want of memory.
macro_rules! told {
    ($fault:ident: $Fault:ident => $carrying:expr) => {
        match $fault {
            $Fault::Memory => Status::Memory,
            $fault => $carrying,
        }
    };
}

impl From<SyntaxFault> for Status {
    ghost from_gives = { λ fault. Tells (status.Fcl (fcl.Syntax fault)) };

    fn from(fault: SyntaxFault) -> Status {
        told!(fault: SyntaxFault => Status::Fcl(FclFault::Syntax(fault)))
    }
}

impl From<LoadFault> for Status {
    ghost from_gives = { λ fault. Tells (status.Fcl (fcl.Load fault)) };

    fn from(fault: LoadFault) -> Status {
        told!(fault: LoadFault => Status::Fcl(FclFault::Load(fault)))
    }
}

impl From<LayoutFault> for Status {
    ghost from_gives = { λ fault. Tells (status.Fcl (fcl.Layout fault)) };

    fn from(fault: LayoutFault) -> Status {
        told!(fault: LayoutFault => Status::Fcl(FclFault::Layout(fault)))
    }
}

impl From<SrecFault> for Status {
    ghost from_gives = { λ fault. Tells (status.Image (image.Records fault)) };

    fn from(fault: SrecFault) -> Status {
        told!(fault: SrecFault => Status::Image(ImageFault::Records(fault)))
    }
}

impl From<TraceFault> for Status {
    ghost from_gives = { λ fault. Tells (status.Trace fault) };

    fn from(fault: TraceFault) -> Status {
        told!(fault: TraceFault => Status::Trace(fault))
    }
}

impl From<PlanFault> for Status {
    ghost from_gives = { λ fault. Tells (status.Plan fault) };

    fn from(fault: PlanFault) -> Status {
        told!(fault: PlanFault => Status::Plan(fault))
    }
}

impl From<UpsetFault> for Status {
    ghost from_gives = { λ fault. Tells (status.Upset fault) };

    fn from(fault: UpsetFault) -> Status {
        told!(fault: UpsetFault => Status::Upset(fault))
    }
}

impl From<NotReached> for Status {
    ghost from_gives = { λ fault. Tells (status.NotReached fault) };

    fn from(fault: NotReached) -> Status {
        told!(fault: NotReached => Status::NotReached(fault))
    }
}

impl From<AsmFault> for Status {
    ghost from_gives = { λ fault. Tells (status.Asm fault) };

    fn from(fault: AsmFault) -> Status {
        told!(fault: AsmFault => Status::Asm(fault))
    }
}

impl From<HandlerFault> for Status {
    ghost from_gives = { λ fault. Tells (status.Handler fault) };

    fn from(fault: HandlerFault) -> Status {
        told!(fault: HandlerFault => Status::Handler(fault))
    }
}

impl From<TextFault> for Status {
    ghost from_gives = { λ fault s. s ≡ status_of fault };

    fn from(fault: TextFault) -> Status {
        match fault {
            TextFault::Text(fault) => Status::Cert(CertRefusal::Text(fault)),
            TextFault::Check(fault) => Status::Cert(CertRefusal::Check(fault)),
            TextFault::Memory => Status::Memory,
        }
    }
}

impl Status {
    ghost use Rattle.fz_status.specs.Codes.{code_of};
    ghost use Rattle.fz_status.specs.Refusals.{of_fast};

    /// The number that the program ends with.
    pub fn code(&self) -> u8
        ensures { result ≡ code_of self.now }
    {
        match self {
            Status::Ok => 0,
            Status::Usage => 1,
            Status::ReadFault(_) => 2,
            Status::WriteFault => 3,
            Status::Fcl(_) => 4,
            Status::Image(_) => 5,
            Status::Cert(_) => 6,
            Status::Trace(_) => 7,
            Status::Plan(_) => 7,
            Status::Upset(_) => 7,
            Status::NotReached(_) => 8,
            Status::Memory => 9,
            Status::TooLong(_) => 10,
            Status::Asm(_) => 11,
            Status::Trap(_, _) => 12,
            Status::Budget(_) => 13,
            Status::Handler(_) => 14,
            Status::Script(_) => 15,
            Status::Fast(FastFault::Fcl(_)) => 4,
            Status::Fast(FastFault::Cert(_)) => 6,
            Status::Fast(FastFault::Trace(_)) => 7,
        }
    }

    /// The same for the fast block: a fault in a block's file becomes one in a file of the fast block.
    pub fn of_fast(self) -> Status
        ensures { result ≡ of_fast self }
    {
        match self {
            Status::Fcl(fault) => Status::Fast(FastFault::Fcl(fault)),
            Status::Cert(fault) => Status::Fast(FastFault::Cert(fault)),
            Status::Trace(fault) => Status::Fast(FastFault::Trace(fault)),
            status => status,
        }
    }
}
