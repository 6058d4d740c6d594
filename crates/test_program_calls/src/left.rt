//! What a call leaves.
ghost use Rattle.std.specs.Prelude.{◌≡◌};
ghost use Rattle.test_program_calls.specs.Lefts.{code_left, err_left, out_left};

/// What a call leaves on out and on err, with its status.
#[derive(Clone, Copy)]
pub enum Left<'a> {
    /// Status 0, and these lines on out.
    Lines(&'a str),
    /// The number of another status, with its line on err, or the prefix of it that err took.
    Refused(u8, &'a str),
    /// Status 3, with the prefix of the lines that out took.
    Broken(&'a str),
}

/// What a call leaves whose words are not those of a command.
pub const USAGE: Left<'static> = Left::Refused(
    1,
    "usage: fuzz12 compile, certify, check, run, asm, exec or gen\n",
);

impl Left<'_> {
    pub(crate) fn code(&self) -> u8
        ensures { result ≡ code_left self.now }
    {
        match self {
            Left::Lines(_) => 0,
            Left::Refused(code, _) => *code,
            Left::Broken(_) => 3,
        }
    }

    pub(crate) fn out(&self) -> &str
        ensures { result.now ≡ out_left self.now }
    {
        match self {
            Left::Lines(lines) => lines,
            Left::Refused(_, _) => "",
            Left::Broken(part) => part,
        }
    }

    pub(crate) fn err(&self) -> &str
        ensures { result.now ≡ err_left self.now }
    {
        match self {
            Left::Lines(_) => "",
            Left::Refused(_, line) => line,
            Left::Broken(_) => "write fault\n",
        }
    }
}

/// Rows of a table: each is given by another row, the fields that differ from it, what the call leaves if that
/// differs, and what OUT holds then.
#[macro_export]
macro_rules! rows {
    ($row:ident: $($base:ident { $($field:ident: $value:expr),* }
        $(leaves $lines:literal)? $(refused $code:literal $line:literal)? $(makes $out:expr)?;)*) => {
        [$($row {
            $($field: $value,)*
            $(left: $crate::Left::Lines($lines),)?
            $(left: $crate::Left::Refused($code, $line),)?
            $(out: Some($out),)?
            ..$base
        }),*]
    };
}
