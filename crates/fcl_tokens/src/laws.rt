//! Laws of the tokens of texts, each the contract of a function that does nothing.
ghost use Rattle.fcl_tokens.specs.{Cuts.CutsAreTokens, Offsets.TokensAscend, Scale.TokensInScale};

/// What the lexer cuts a text into is exactly what is in it: blanks, comments and tokens, each the longest at its
/// place; and its fault is exactly the text's first token fault.
pub fn cuts_are_tokens()
    ensures { CutsAreTokens }
{}

/// The offsets of a text's tokens ascend in their order, and they lie within the text.
pub fn tokens_ascend()
    ensures { TokensAscend }
{}

/// No number token of a text is above 100000, since a number that is has a fault.
pub fn tokens_in_scale()
    ensures { TokensInScale }
{}
