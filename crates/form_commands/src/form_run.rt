//! What the words of the commands give besides the names of files.
ghost use Rattle.std.specs.Prelude.{◌≡◌};
ghost use Rattle.fz_status.specs.Words.{texts_of};
ghost use Rattle.form_commands.specs.Forms.{form_run_in};

use box_tree::CertKind;
use command_parts::words::flags;
use fz_status::word;

/// What the words give for a run of one of the other forms of firmware.
#[derive(Clone, Copy)]
pub struct FormRun {
    /// The kind of its certificates: plain or tight.
    pub(crate) kind: CertKind,
    /// The byte from which the open flags are taken.
    pub(crate) flags: u8,
}

impl FormRun {
    /// What a command's words give, FLAGS being the word at this index, or `None` if that is no byte of flags.
    pub fn of(kind: CertKind, place: u32, words: &[String]) -> Option<FormRun>
        ensures { result ≡ form_run_in kind place (texts_of words.now) }
    {
        let flags = flags(word(words, place))?;
        Some(FormRun { kind, flags })
    }
}
