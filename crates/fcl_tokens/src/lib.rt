//! The tokens of the Fuzzy Control Language: from texts to tokens.
//!
//! [`lex`] cuts a text into blanks, comments and [`Token`]s from the left, by the words and delimiters of IEC
//! 61131-7 in the profile of `docs/LANGUAGE.md`. It returns exactly the text's tokens with the place of each, or
//! exactly its first [`LexFault`]; the law [`laws::cuts_are_tokens`] states that these are what is in the text,
//! each the longest at its place.
#![tactic(auto)]

pub mod laws;
mod lexer;
mod token;

pub use lexer::{LexError, LexFault, LexKind, lex, name_len};
pub use token::{Amount, Keyword, Token, Word};
