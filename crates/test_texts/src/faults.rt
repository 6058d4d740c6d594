//! Texts that spell no function block, each in two parts: the fault is where the second begins.
use fz_num::DecFault;
use std::alloc::{AllocError, Global};

/// The text before the fault.
type Front = &'static [u8];

/// The text from the fault on.
type Back = &'static [u8];

/// What is wrong with a text.
#[derive(Clone, Copy)]
pub enum Flaw {
    /// A byte that begins no token.
    BadByte,
    /// A comment without an end.
    OpenComment,
    /// A number that is no decimal.
    Number(DecFault),
    /// A token that does not belong there.
    Expected,
    /// A part that the profile leaves out, by its code.
    Unsupported(u8),
    /// One parenthesis or NOT too many.
    Deep,
}

// A row is the text before a fault, the text from the fault on, and the fault, or the number of its kind.
macro_rules! faulty {
    ($($front:literal then $back:literal: $kind:literal;)*) => { [$(($front, $back, $kind)),*] };
    ($($front:literal then $back:literal: $flaw:ident $($of:expr)?;)*) => {
        [$(($front, $back, Flaw::$flaw $(($of))?)),*]
    };
}

/// Texts that are each written for one fault.
pub static FAULTS: [(Front, Back, Flaw); 49] = faulty! {
    b"" then b"x": Expected;
    b"FUNCTION_BLOCK" then b"": Expected;
    b"FUNCTION_BLOCK " then b"term": Expected;
    b"FUNCTION_BLOCK a VAR_INPUT x : " then b"5;": Expected;
    b"FUNCTION_BLOCK a " then b"VAR END_VAR": Unsupported 6;
    b"FUNCTION_BLOCK a VAR_INPUT END_VAR " then b"var": Unsupported 6;
    b"FUNCTION_BLOCK a FUZZIFY x END_FUZZIFY " then b"VAR": Expected;
    b"FUNCTION_BLOCK a " then b"OPTION": Unsupported 7;
    b"FUNCTION_BLOCK a FUZZIFY x END_FUZZIFY " then b"Option": Unsupported 7;
    b"FUNCTION_BLOCK a RULEBLOCK r " then b"OPTION": Unsupported 7;
    b"FUNCTION_BLOCK a RULEBLOCK r ACT : MIN; " then b"OPTION": Unsupported 7;
    b"FUNCTION_BLOCK a RULEBLOCK r END_RULEBLOCK " then b"OPTION": Unsupported 7;
    b"FUNCTION_BLOCK a RULEBLOCK r END_RULEBLOCK " then b"RULEBLOCK": Unsupported 8;
    b"FUNCTION_BLOCK a RULEBLOCK r END_RULEBLOCK " then b"END_OPTION": Expected;
    b"FUNCTION_BLOCK a DEFUZZIFY y METHOD : " then b"COG;": Unsupported 1;
    b"FUNCTION_BLOCK a DEFUZZIFY y METHOD : " then b"rm;": Unsupported 1;
    b"FUNCTION_BLOCK a DEFUZZIFY y METHOD : " then b"COGZ;": Expected;
    b"FUNCTION_BLOCK a RULEBLOCK r AND : " then b"MAX;": Expected;
    b"FUNCTION_BLOCK a RULEBLOCK r OR : " then b"BSUM;": Unsupported 3;
    b"FUNCTION_BLOCK a RULEBLOCK r ACCU : " then b"NSUM;": Unsupported 4;
    b"FUNCTION_BLOCK a DEFUZZIFY y ACCU : " then b"BSUM;": Unsupported 4;
    b"FUNCTION_BLOCK a RULEBLOCK r ACT : " then b"MAX;": Expected;
    b"FUNCTION_BLOCK a FUZZIFY x TERM t := (+ " then b"q, 1)": Unsupported 10;
    b"FUNCTION_BLOCK a FUZZIFY x TERM t := (1, " then b"q)": Unsupported 10;
    b"FUNCTION_BLOCK a FUZZIFY x TERM t := (1, " then b"0.5)": Unsupported 11;
    b"FUNCTION_BLOCK a FUZZIFY x TERM t := (1, -" then b"1)": Unsupported 11;
    b"FUNCTION_BLOCK a FUZZIFY x TERM t := (1, -0) (2, 1.0) (3, 01) " then b"": Expected;
    b"FUNCTION_BLOCK a FUZZIFY x TERM t := " then b"-1": Unsupported 14;
    b"FUNCTION_BLOCK a FUZZIFY x TERM t := " then b"1": Unsupported 14;
    b"FUNCTION_BLOCK a DEFUZZIFY y TERM t := " then b"(1, 0)": Unsupported 13;
    b"FUNCTION_BLOCK a DEFUZZIFY y DEFAULT := nc; DEFAULT := " then b"nd;": Expected;
    b"FUNCTION_BLOCK a RULEBLOCK r RULE 1 : IF " then b"x THEN": Unsupported 12;
    b"FUNCTION_BLOCK a RULEBLOCK r RULE 1 : IF x IS a OR " then b"y )": Unsupported 12;
    b"FUNCTION_BLOCK a RULEBLOCK r RULE 1 : IF x IS a THEN y IS b WITH " then b"w;": Unsupported 15;
    b"FUNCTION_BLOCK a RULEBLOCK r RULE 1 : IF x IS a THEN y IS b WITH + " then b"w;": Expected;
    b"FUNCTION_BLOCK a RULEBLOCK r RULE " then b"1.0 : IF": Expected;
    b"FUNCTION_BLOCK a\r\n(* \x00\xFF // (* $ *)\r\n// \x80 *) (*\r ( \nvar_Input "
        then b"END_FUZZIFY": Expected;
    b"function_Block a\r\nVAR_INPUT\r\nx,\r\nY : Real ;\r\nEnd_Var\r\n" then b"END_VAR": Expected;
    b"(* (* *) " then b"*)": BadByte;
    b"" then b"(*)": OpenComment;
    b"FUNCTION_BLOCK " then b"1e5": Number DecFault::Shape;
    b"x " then b"0.00001 $": Number DecFault::Places;
    b"RULE " then b"100001": Number DecFault::Large;
    b"1..2 1 " then b". 2": BadByte;
    b"" then b"": Expected;
    b"FUNCTION_BLOCK a VAR_INPUT x : " then b"INT;": Unsupported 5;
    b"FUNCTION_BLOCK a RULEBLOCK r AND : " then b"PROD;": Unsupported 2;
    b"" then b"(* x": OpenComment;
    b"FUNCTION_BLOCK a RULEBLOCK r RULE 1 : IF (((((((((((((((((((((((((((((((((((((((((((((((((((((((((((((((("
        then b"(": Deep;
};

/// The text before the two parts of a text with a load fault.
const HEAD: &[u8] = b"FUNCTION_BLOCK a ";

/// The text after them.
const TAIL: &[u8] = b" END_RULEBLOCK END_FUNCTION_BLOCK";

/// Texts with a load fault, with the number of its kind, between [`HEAD`] and [`TAIL`]. Most have faults of later
/// kinds too, some at earlier offsets.
pub static LOAD_FAULTS: [(Front, Back, u8); 25] = faulty! {
    b"VAR_INPUT x, " then b"X : REAL; END_VAR RULEBLOCK r": 1;
    b"VAR_INPUT x : REAL; END_VAR VAR_OUTPUT " then b"x : REAL; END_VAR RULEBLOCK r": 1;
    b"FUZZIFY x END_FUZZIFY DEFUZZIFY " then b"x END_DEFUZZIFY RULEBLOCK r": 1;
    b"FUZZIFY x TERM t := (0,1); TERM " then b"t := (0,1); END_FUZZIFY RULEBLOCK r": 1;
    b"FUZZIFY x RANGE (0..1); " then b"RANGE (0..1); END_FUZZIFY RULEBLOCK r": 1;
    b"DEFUZZIFY x ACCU : MAX; DEFAULT := NC; " then b"DEFAULT := 1; END_DEFUZZIFY RULEBLOCK r": 1;
    b"RULEBLOCK r AND : MIN; ACCU : MAX; " then b"AND : MIN;": 1;
    b"FUZZIFY " then b"x END_FUZZIFY RULEBLOCK r": 2;
    b"VAR_INPUT x : REAL; END_VAR RULEBLOCK r RULE 1 : IF x IS " then b"t THEN x IS t;": 2;
    b"VAR_OUTPUT y : REAL; END_VAR RULEBLOCK r RULE 1 : IF y IS t THEN " then b"z IS t;": 2;
    b"VAR_INPUT t : REAL; END_VAR
VAR_OUTPUT power : REAL; END_VAR
FUZZIFY t TERM cold := (0, 1) (256, 0); TERM hot := (0, 0) (256, 1); END_FUZZIFY
DEFUZZIFY power TERM off := 0; TERM on := 100; METHOD : COGS; DEFAULT := 0; END_DEFUZZIFY
RULEBLOCK r
RULE 1 : IF t IS cold THEN power IS off;
RULE 2 : IF t IS "
        then b"warm THEN power IS on;": 2;
    b"VAR_INPUT x : REAL; END_VAR FUZZIFY x RANGE (1..0); " then b"END_FUZZIFY RULEBLOCK r": 3;
    b"VAR_INPUT a,b,c,d,e,f,g,h, " then b"i : REAL; END_VAR RULEBLOCK r": 4;
    b"VAR_OUTPUT a,b,c,d, " then b"e : REAL; END_VAR RULEBLOCK r": 4;
    b"VAR_INPUT x : REAL; END_VAR FUZZIFY x TERM t := (1,0) (1,0) "
        then b"(0,1); RANGE (5..5); END_FUZZIFY RULEBLOCK r": 5;
    b"VAR_INPUT x : REAL; END_VAR FUZZIFY x TERM s := (9,1); "
        then b"TERM t := (0,1) (1,0) (2,1); RANGE (0..2); END_FUZZIFY RULEBLOCK r": 6;
    b"VAR_INPUT x : REAL; END_VAR FUZZIFY x TERM t := (0,1) "
        then b"(2.5,0); RANGE (0..2.4); END_FUZZIFY RULEBLOCK r": 7;
    b"VAR_INPUT x : REAL; END_VAR FUZZIFY " then b"x TERM t := (1,1); END_FUZZIFY RULEBLOCK r": 8;
    b"VAR_OUTPUT y : REAL; END_VAR DEFUZZIFY y TERM t := 5; " then b"RANGE := (1..1); END_DEFUZZIFY RULEBLOCK r": 8;
    b"VAR_OUTPUT y : REAL; END_VAR DEFUZZIFY y TERM s := 0; "
        then b"TERM t := 2; RANGE (0..1); DEFAULT := -1; END_DEFUZZIFY RULEBLOCK r": 9;
    b"VAR_INPUT x : REAL; END_VAR VAR_OUTPUT y : REAL; END_VAR FUZZIFY x TERM t := (0,1) (1,0); END_FUZZIFY \
          DEFUZZIFY y TERM t := 0; END_DEFUZZIFY RULEBLOCK r RULE 1 : IF x IS t THEN y IS t "
        then b"WITH 1.0001;": 10;
    b"VAR_INPUT x : REAL; END_VAR VAR_OUTPUT y : REAL; END_VAR FUZZIFY x TERM t := (0,1) (1,0); END_FUZZIFY \
          DEFUZZIFY y TERM t := 0; END_DEFUZZIFY RULEBLOCK r RULE 1 : IF "
        then b"y IS t THEN x IS t;": 11;
    b"VAR_OUTPUT y : REAL; END_VAR FUZZIFY " then b"y TERM t := (1,1); END_FUZZIFY RULEBLOCK r": 11;
    b"VAR_INPUT " then b"x : REAL; END_VAR RULEBLOCK r": 12;
    b"VAR_OUTPUT y : REAL; END_VAR DEFUZZIFY y TERM t := 1; METHOD : COGS; " then b"END_DEFUZZIFY RULEBLOCK r": 12;
};

/// A text with a load fault, and the fault's offset.
pub fn with_load_fault(
    alloc: Global,
    front: &[u8],
    back: &[u8],
) -> Result<(Vec<u8>, usize), AllocError> {
    let mut text = Vec::from_slice(alloc, HEAD)?;
    text.extend_from_slice(front)?;
    let at = text.len();
    text.extend_from_slice(back)?;
    text.extend_from_slice(TAIL)?;
    Ok((text, at))
}
