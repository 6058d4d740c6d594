//! Which instructions a handler may have, and where they lead.
ghost use Rattle.std.specs.Prelude.{◌≡◌, ◌≤◌, ◌<◌, ◌+◌, ℕ, IfSome, IfNone, true, false};
ghost use Rattle.cpu12_isa.specs.{Regions.is_free};
ghost use Rattle.handler_check.specs.{Cut.size_of, Cut.code_limit, PathSummaries.list_of};
ghost use Rattle.handler_check.specs.Paths.{kind_of, IsIn, writes, targets, falls, IsForward, height_behind, Fits};

use cpu12_isa::encode::encode;
use cpu12_isa::instr::Instr;
use cpu12_isa::mem::is_free;

/// What an instruction that a handler may have does apart from registers and flags.
#[derive(Clone, Copy, Drop)]
pub(crate) enum Kind {
    /// Nothing.
    Plain,
    /// It writes the byte at an address.
    Writes(u16),
    /// It branches on a condition, by the offset.
    Branches(u8),
    /// It branches always, by the offset.
    Jumps(u8),
    /// PSHA.
    Pushes,
    /// PULA.
    Pulls,
    /// RTI.
    Returns,
}

/// The kind of an instruction, if a handler may have it.
pub(crate) fn kind_of(instr: Instr) -> Option<Kind>
    ensures { result ≡ kind_of instr }
{
    match instr {
        Instr::LdaaImmediate(_)
        | Instr::LdaaExtended(_)
        | Instr::LdabImmediate(_)
        | Instr::LdabExtended(_)
        | Instr::LdxImmediate(_)
        | Instr::LdyImmediate(_)
        | Instr::Coma
        | Instr::CpxImmediate(_)
        | Instr::Orcc(_)
        | Instr::TransferXD
        | Instr::TransferYD
        | Instr::Ediv
        | Instr::Nop
        | Instr::AddaImmediate(_)
        | Instr::AddaExtended(_)
        | Instr::AddbImmediate(_)
        | Instr::AddbExtended(_)
        | Instr::AddbPostIncrementX
        | Instr::AdcaImmediate(_)
        | Instr::SubaImmediate(_)
        | Instr::SubaExtended(_)
        | Instr::CmpaImmediate(_)
        | Instr::CmpaExtended(_)
        | Instr::AndaImmediate(_)
        | Instr::AndaExtended(_)
        | Instr::OraaImmediate(_)
        | Instr::OraaExtended(_)
        | Instr::Inx
        | Instr::Dex
        | Instr::Iny
        | Instr::Dey => Some(Kind::Plain),
        Instr::StaaExtended(at)
        | Instr::StabExtended(at)
        | Instr::ClrExtended(at)
        | Instr::IncExtended(at)
        | Instr::DecExtended(at)
        | Instr::MovbImmediate(_, at)
        | Instr::MovbExtended(_, at) => Some(Kind::Writes(at)),
        Instr::Beq(to) | Instr::Bne(to) | Instr::Bcc(to) | Instr::Bcs(to) => {
            Some(Kind::Branches(to))
        }
        Instr::Bra(to) => Some(Kind::Jumps(to)),
        Instr::Psha => Some(Kind::Pushes),
        Instr::Pula => Some(Kind::Pulls),
        Instr::Rti => Some(Kind::Returns),
        _ => None,
    }
}

impl Kind {
    /// The address that it writes, apart from the stack of PSHA, if that is not free.
    pub(crate) fn not_free(self) -> Option<u16>
        ensures some { IfSome result (λ to. IsIn (writes self) to × (is_free to ≡ false)) }
        ensures none { IfNone result ((to : ℕ) → IsIn (writes self) to → is_free to ≡ true) }
    {
        match self {
            Kind::Writes(to) if !is_free(to) => Some(to),
            _ => None,
        }
    }

    /// Whether it is a branch with a negative offset.
    pub(crate) fn goes_back(self) -> bool
        ensures back { result ≡ true → IsForward self → ⊥ }
        ensures forward { result ≡ false → IsForward self }
    {
        match self {
            Kind::Branches(to) | Kind::Jumps(to) => to >= 128,
            _ => false,
        }
    }

    /// Where it branches to forward.
    pub(crate) fn branches_to(self, at: u16) -> Option<u16>
        requires { at < code_limit }
        ensures to { list_of result ≡ targets at self }
        ensures ahead { IfSome result (λ to. at < to) }
    {
        match self {
            Kind::Branches(to) | Kind::Jumps(to) if to < 128 => Some(at + 2 + u16::from(to)),
            _ => None,
        }
    }

    /// Where it continues without a branch; `next` is the address after it.
    pub(crate) fn falls_to(self, next: u16) -> Option<u16>
        ensures to { list_of result ≡ falls next self }
        ensures next { IfSome result (λ to. to ≡ next) }
    {
        match self {
            Kind::Jumps(_) | Kind::Returns => None,
            _ => Some(next),
        }
    }

    /// Whether it is allowed while `height` bytes are pushed.
    pub(crate) fn fits_height(self, height: u8) -> bool
        ensures fits { result ≡ true → Fits self height }
        ensures not { result ≡ false → Fits self height → ⊥ }
    {
        match self {
            Kind::Pushes => height < 15,
            Kind::Pulls => height > 0,
            Kind::Returns => height == 0,
            _ => true,
        }
    }

    /// How many bytes are pushed after it, if it is allowed while `height` are.
    pub(crate) fn height_after(self, height: u8) -> u8
        requires low { height ≤ 15 }
        requires fits { Fits self height }
        ensures { result ≡ height_behind self height }
    {
        match self {
            Kind::Pushes => height + 1,
            Kind::Pulls => height - 1,
            _ => height,
        }
    }
}

/// How many bytes an instruction has.
pub(crate) fn size(instr: &Instr) -> u16
    ensures size { result ≡ size_of instr.now }
    ensures few { result ≤ 6 }
{
    encode(instr).len() as u16
}
