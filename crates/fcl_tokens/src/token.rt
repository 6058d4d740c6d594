//! Tokens, and words with a special meaning.

use fz_num::Dec;

/// A word that is never a name. Its case does not count.
#[derive(Clone, Copy, PartialEq, Eq)]
pub enum Keyword {
    FunctionBlock,
    EndFunctionBlock,
    VarInput,
    VarOutput,
    EndVar,
    Var,
    Fuzzify,
    EndFuzzify,
    Defuzzify,
    EndDefuzzify,
    Term,
    Range,
    Accu,
    Method,
    Default,
    Ruleblock,
    EndRuleblock,
    Rule,
    If,
    Then,
    With,
    Is,
    Not,
    And,
    Or,
    Act,
    Options,
    EndOptions,
}

/// What a name means in the place of a type, an operator or a method; anywhere else it is a name like the others.
#[derive(Clone, Copy, PartialEq, Eq)]
pub enum Word {
    Real,
    Min,
    Max,
    Prod,
    Bdif,
    Asum,
    Bsum,
    Nsum,
    Cogs,
    /// COG or COA.
    Centre,
    /// LM or RM.
    Extreme,
    Nc,
    Other,
}

/// The value of a number without its sign. 0 and 1 are separate, since they alone are degrees.
#[derive(Clone, Copy, PartialEq, Eq)]
pub enum Amount {
    Zero,
    One,
    Other(Dec),
}

/// A token. Those that a tree keeps carry their place in the text.
#[derive(Clone, Copy, PartialEq, Eq)]
pub enum Token {
    Word(u32, Keyword),
    Name(u32, Word),
    /// Its place, its value, and whether it is written without a point.
    Number(u32, Amount, bool),
    Open(u32),
    Close,
    Assign,
    To,
    Colon,
    Semicolon,
    Comma,
    Plus,
    Minus,
}

/// The meaning of a word that is spelled like a name.
#[derive(Clone, Copy)]
pub enum Meaning {
    Keyword(Keyword),
    Name(Word),
}

/// The words with a special meaning. Case does not count.
pub const MEANINGS: [(&[u8], Meaning); 42] = [
    (b"FUNCTION_BLOCK", Meaning::Keyword(Keyword::FunctionBlock)),
    (
        b"END_FUNCTION_BLOCK",
        Meaning::Keyword(Keyword::EndFunctionBlock),
    ),
    (b"VAR_INPUT", Meaning::Keyword(Keyword::VarInput)),
    (b"VAR_OUTPUT", Meaning::Keyword(Keyword::VarOutput)),
    (b"END_VAR", Meaning::Keyword(Keyword::EndVar)),
    (b"VAR", Meaning::Keyword(Keyword::Var)),
    (b"FUZZIFY", Meaning::Keyword(Keyword::Fuzzify)),
    (b"END_FUZZIFY", Meaning::Keyword(Keyword::EndFuzzify)),
    (b"DEFUZZIFY", Meaning::Keyword(Keyword::Defuzzify)),
    (b"END_DEFUZZIFY", Meaning::Keyword(Keyword::EndDefuzzify)),
    (b"TERM", Meaning::Keyword(Keyword::Term)),
    (b"RANGE", Meaning::Keyword(Keyword::Range)),
    (b"ACCU", Meaning::Keyword(Keyword::Accu)),
    (b"METHOD", Meaning::Keyword(Keyword::Method)),
    (b"DEFAULT", Meaning::Keyword(Keyword::Default)),
    (b"RULEBLOCK", Meaning::Keyword(Keyword::Ruleblock)),
    (b"END_RULEBLOCK", Meaning::Keyword(Keyword::EndRuleblock)),
    (b"RULE", Meaning::Keyword(Keyword::Rule)),
    (b"IF", Meaning::Keyword(Keyword::If)),
    (b"THEN", Meaning::Keyword(Keyword::Then)),
    (b"WITH", Meaning::Keyword(Keyword::With)),
    (b"IS", Meaning::Keyword(Keyword::Is)),
    (b"NOT", Meaning::Keyword(Keyword::Not)),
    (b"AND", Meaning::Keyword(Keyword::And)),
    (b"OR", Meaning::Keyword(Keyword::Or)),
    (b"ACT", Meaning::Keyword(Keyword::Act)),
    (b"OPTION", Meaning::Keyword(Keyword::Options)),
    (b"END_OPTION", Meaning::Keyword(Keyword::EndOptions)),
    (b"REAL", Meaning::Name(Word::Real)),
    (b"MIN", Meaning::Name(Word::Min)),
    (b"MAX", Meaning::Name(Word::Max)),
    (b"PROD", Meaning::Name(Word::Prod)),
    (b"BDIF", Meaning::Name(Word::Bdif)),
    (b"ASUM", Meaning::Name(Word::Asum)),
    (b"BSUM", Meaning::Name(Word::Bsum)),
    (b"NSUM", Meaning::Name(Word::Nsum)),
    (b"COGS", Meaning::Name(Word::Cogs)),
    (b"COG", Meaning::Name(Word::Centre)),
    (b"COA", Meaning::Name(Word::Centre)),
    (b"LM", Meaning::Name(Word::Extreme)),
    (b"RM", Meaning::Name(Word::Extreme)),
    (b"NC", Meaning::Name(Word::Nc)),
];
