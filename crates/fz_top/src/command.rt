//! The commands: their table, and every match on the command.
//!
//! Each command has its own file in build_commands, run_commands or form_commands, with the form of its words, the
//! files that it reads and what it makes from them; the file of the same name in `specs/` there defines
//! these. Here each has a row of the table and an arm of each match.
ghost use Rattle.std.specs.Prelude.{◌≡◌, ◌↔◌, ◌≤◌, length, IfOk, IsErrOf, Some, None};
ghost use Rattle.std.specs.List.{All};
ghost use Rattle.fz_words.specs.App.{IsRefused};
ghost use Rattle.fz_status.specs.Words.{texts_of};
ghost use Rattle.command_parts.specs.{Contents.bytes_of, SeenOutputs.IsResultOf};
ghost use Rattle.fz_top.specs.Commands.{IsUsage, Makes, command_in, command_named, inputs_of, name_in, table};

use box_tree::CertFormat;
use box_tree::CertKind::{self, Named, Tight};
use build_commands::certify::{self, Certify};
use build_commands::check::{self, Check};
use build_commands::compile::{self, Compile};
use build_commands::exec::{self, Exec};
use build_commands::{asm, hcheck, lcompile};
use byte_scaling::Width::{Byte, Word};
use command_parts::contents::Content;
use command_parts::firmware::Form::{self, Alone, Mailbox, Watched};
use command_parts::output::Output;
use form_commands::form_run::FormRun;
use form_commands::{hrun, lrun, mrun, srun};
use fz_status::Status;
use fz_words::Refusal;
use run_commands::debug::{self, DebugRun};
use run_commands::generate::{self, Generate};
use run_commands::run::{self, Run};
use std::alloc::Global;

/// A command by its name alone, which also gives the certificate's format.
#[derive(Clone, Copy)]
pub(crate) enum Name {
    Asm,
    Certify(CertFormat),
    Check(CertFormat),
    Compile(Form),
    Debug,
    Exec,
    Generate,
    Hcheck,
    Hrun(CertKind),
    Lcompile,
    Lrun(CertKind),
    Mrun(CertKind),
    Run(CertFormat),
    Srun(CertKind),
}

/// The names of the commands on the command line, each with its number of further words.
static COMMANDS: [(&str, usize, Name); 30] = [
    ("asm", 2, Name::Asm),
    ("certify", 3, Name::Certify(CertFormat::NAMED)),
    ("certify16", 3, Name::Certify(CertFormat::NAMED16)),
    ("check", 2, Name::Check(CertFormat::NAMED)),
    ("check16", 2, Name::Check(CertFormat::NAMED16)),
    ("compile", 2, Name::Compile(Alone(Byte))),
    ("compile16", 2, Name::Compile(Alone(Word))),
    ("debug", 6, Name::Debug),
    ("exec", 3, Name::Exec),
    ("gen", 1, Name::Generate),
    ("hcheck", 1, Name::Hcheck),
    ("hrun", 6, Name::Hrun(Named)),
    ("lcompile", 3, Name::Lcompile),
    ("lrun", 9, Name::Lrun(Named)),
    ("mcompile", 2, Name::Compile(Mailbox)),
    ("mrun", 6, Name::Mrun(Named)),
    ("run", 6, Name::Run(CertFormat::NAMED)),
    ("run16", 6, Name::Run(CertFormat::NAMED16)),
    ("scompile", 2, Name::Compile(Watched)),
    ("srun", 7, Name::Srun(Named)),
    ("tcertify", 3, Name::Certify(CertFormat::TIGHT)),
    ("tcertify16", 3, Name::Certify(CertFormat::TIGHT16)),
    ("tcheck", 2, Name::Check(CertFormat::TIGHT)),
    ("tcheck16", 2, Name::Check(CertFormat::TIGHT16)),
    ("thrun", 6, Name::Hrun(Tight)),
    ("tlrun", 9, Name::Lrun(Tight)),
    ("tmrun", 6, Name::Mrun(Tight)),
    ("trun", 6, Name::Run(CertFormat::TIGHT)),
    ("trun16", 6, Name::Run(CertFormat::TIGHT16)),
    ("tsrun", 7, Name::Srun(Tight)),
];

/// A command with what its words give besides the names of files.
#[derive(Drop)]
pub enum Command {
    /// `asm SRC OUT`
    Asm,
    /// `certify FCL TARGET OUT`, `certify16 ..`, `tcertify ..` and `tcertify16 ..`
    Certify(Certify),
    /// `check FCL CERT`, `check16 ..`, `tcheck ..` and `tcheck16 ..`
    Check(Check),
    /// `compile FCL OUT`, `compile16 ..`, `mcompile ..` and `scompile ..`
    Compile(Compile),
    /// `debug FCL IMAGE TRACE PLAN FLAGS SCRIPT`
    Debug(DebugRun),
    /// `exec IMAGE STEPS FLAGS`
    Exec(Exec),
    /// `gen NUMBER`
    Generate(Generate),
    /// `hcheck HANDLER`
    Hcheck,
    /// `hrun FCL HANDLER CERT TRACE PLAN FLAGS` and `thrun ..`
    Hrun(FormRun),
    /// `lcompile SLOW FAST OUT`
    Lcompile,
    /// `lrun SLOW FAST IMAGE SCERT FCERT STRACE FTRACE LEVELS FLAGS` and `tlrun ..`
    Lrun(FormRun),
    /// `mrun FCL IMAGE CERT TRACE POSTS FLAGS` and `tmrun ..`
    Mrun(FormRun),
    /// `run FCL IMAGE CERT TRACE PLAN FLAGS`, `run16 ..`, `trun ..` and `trun16 ..`
    Run(Run),
    /// `srun FCL IMAGE CERT TRACE PLAN UPSETS FLAGS` and `tsrun ..`
    Srun(FormRun),
}

/// The command of this name with what the words give, if each word is of its form.
#[tactic(auto, unfolding(crate::specs::Commands::command_named))]
fn formed(name: Name, words: &[String]) -> Option<Command>
    ensures { result ≡ command_named name (texts_of words.now) }
{
    match name {
        Name::Asm => Some(Command::Asm),
        Name::Certify(format) => Certify::of(format, words).map(Command::Certify),
        Name::Check(format) => Some(Command::Check(Check { format })),
        Name::Compile(form) => Some(Command::Compile(Compile { form })),
        Name::Debug => DebugRun::of(words).map(Command::Debug),
        Name::Exec => Exec::of(words).map(Command::Exec),
        Name::Generate => Generate::of(words).map(Command::Generate),
        Name::Hcheck => Some(Command::Hcheck),
        Name::Hrun(kind) => FormRun::of(kind, hrun::FLAGS, words).map(Command::Hrun),
        Name::Lcompile => Some(Command::Lcompile),
        Name::Lrun(kind) => FormRun::of(kind, lrun::FLAGS, words).map(Command::Lrun),
        Name::Mrun(kind) => FormRun::of(kind, mrun::FLAGS, words).map(Command::Mrun),
        Name::Run(format) => Run::of(format, words).map(Command::Run),
        Name::Srun(kind) => FormRun::of(kind, srun::FLAGS, words).map(Command::Srun),
    }
}

impl Command {
    /// The indices of the words that name the files to read, in order.
    #[tactic(auto, unfolding(crate::specs::Commands::inputs_of))]
    pub(crate) fn inputs(&self) -> &'static [u32]
        ensures { result.now ≡ inputs_of self.now }
    {
        match self {
            Command::Asm => asm::INPUTS.as_slice(),
            Command::Certify(_) => certify::INPUTS.as_slice(),
            Command::Check(_) => check::INPUTS.as_slice(),
            Command::Compile(_) => compile::INPUTS.as_slice(),
            Command::Debug(_) => debug::INPUTS.as_slice(),
            Command::Exec(_) => exec::INPUTS.as_slice(),
            Command::Generate(_) => generate::INPUTS.as_slice(),
            Command::Hcheck => hcheck::INPUTS.as_slice(),
            Command::Hrun(_) => hrun::INPUTS.as_slice(),
            Command::Lcompile => lcompile::INPUTS.as_slice(),
            Command::Lrun(_) => lrun::INPUTS.as_slice(),
            Command::Mrun(_) => mrun::INPUTS.as_slice(),
            Command::Run(_) => run::INPUTS.as_slice(),
            Command::Srun(_) => srun::INPUTS.as_slice(),
        }
    }

    /// The command's output for the contents of its files.
    #[tactic(auto, unfolding(crate::specs::Commands::Makes))]
    pub(crate) fn work(self, alloc: Global, contents: &[Vec<u8>]) -> Result<Output, Status>
        requires { All (λ c. length c.items ≤ 1048576) contents.now }
        ensures { IsResultOf (Makes self (bytes_of contents.now)) result }
    {
        let first = Content::at(contents, 0);
        let second = Content::at(contents, 1);
        match self {
            Command::Asm => asm::work(alloc, &first),
            Command::Certify(certify) => certify.work(alloc, &first),
            Command::Check(check) => check.work(alloc, &first, &second),
            Command::Compile(compile) => compile.work(alloc, &first),
            Command::Debug(debug) => debug.work(alloc, &debug::files_of(contents)),
            Command::Exec(exec) => exec.work(alloc, &first),
            Command::Generate(generate) => generate.work(alloc),
            Command::Hcheck => hcheck::work(alloc, &first),
            Command::Hrun(run) => hrun::work(alloc, run, &hrun::files_of(contents)),
            Command::Lcompile => lcompile::work(alloc, &first, &second),
            Command::Lrun(run) => lrun::work(alloc, run, &lrun::files_of(contents)),
            Command::Mrun(run) => mrun::work(alloc, run, &mrun::files_of(contents)),
            Command::Run(run) => run.work(alloc, &run::files_of(contents)),
            Command::Srun(run) => srun::work(alloc, run, &srun::files_of(contents)),
        }
    }
}

/// The name of the command that the words are of, the program's own name being the first word.
fn name_of(alloc: Global, words: &[String]) -> Result<Name, Refusal>
    ensures named { IfOk result (λ n. name_in (texts_of words.now) ≡ Some n) }
    ensures usage { IsErrOf result Refusal.Usage → name_in (texts_of words.now) ≡ None }
    ensures law { (name_in (texts_of words.now) ≡ None) ↔ IsRefused table (texts_of words.now) }
{
    fz_words::command_of(alloc, COMMANDS.as_slice(), words)
}

/// The command of the words, the program's own name being the first word.
pub(crate) fn command_of(alloc: Global, words: &[String]) -> Result<Command, Refusal>
    ensures value { IfOk result (λ c. command_in (texts_of words.now) ≡ Some c) }
    ensures usage { IsErrOf result Refusal.Usage → command_in (texts_of words.now) ≡ None }
    ensures law { (command_in (texts_of words.now) ≡ None) ↔ IsUsage (texts_of words.now) }
{
    let name = name_of(alloc, words)?;
    match formed(name, words) {
        Some(command) => Ok(command),
        None => Err(Refusal::Usage),
    }
}
