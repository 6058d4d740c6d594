//! Texts of blocks, images, sources and certificates that several test crates share.
//!
//! The images were worked out from the instruction table of the CPU12 Reference Manual.
#![tactic(auto)]

ghost use Rattle.std.specs.Prelude.{◌≡◌, string_bytes, IfOk};
ghost use Rattle.test_texts.specs.Parts.{text_of_parts};

mod controllers;
mod faults;

pub use controllers::{BLIND, DRYER, PUMP, ROOM};
pub use faults::{FAULTS, Flaw, LOAD_FAULTS, with_load_fault};
use std::alloc::{AllocError, Global};

/// The parts of a text, joined.
pub fn joined(alloc: Global, parts: &[&str]) -> Result<String, AllocError>
    ensures { IfOk result (λ text. string_bytes text ≡ text_of_parts parts.now) }
{
    let mut text = String::new(alloc);
    for part in parts {
        text.push_str(part)?;
    }
    Ok(text)
}

/// The heater: one input and one output, off when it is cold and on when it is hot.
pub const BLOCK: &str = "FUNCTION_BLOCK a
VAR_INPUT t : REAL; END_VAR
VAR_OUTPUT power : REAL; END_VAR
FUZZIFY t TERM cold := (0, 1) (256, 0); TERM hot := (0, 0) (256, 1); END_FUZZIFY
DEFUZZIFY power TERM off := 0; TERM on := 100; METHOD : COGS; DEFAULT := 0; END_DEFUZZIFY
RULEBLOCK r
RULE 1 : IF t IS cold THEN power IS off;
RULE 2 : IF t IS hot THEN power IS on;
END_RULEBLOCK
END_FUNCTION_BLOCK
";

/// The heater's text up to its default.
pub const FRONT: &str = "FUNCTION_BLOCK a
VAR_INPUT t : REAL; END_VAR
VAR_OUTPUT power : REAL; END_VAR
FUZZIFY t TERM cold := (0, 1) (256, 0); TERM hot := (0, 0) (256, 1); END_FUZZIFY
DEFUZZIFY power TERM off := 0; TERM on := 100; METHOD : COGS; DEFAULT := ";

/// The text between its default and the end of its first rule.
pub const MIDDLE: &str = "; END_DEFUZZIFY
RULEBLOCK r
RULE 1 : IF t IS cold THEN power IS off";

/// The text of its second rule.
pub const SECOND: &str = ";
RULE 2 : IF t IS hot THEN power IS on";

/// The text after its last rule.
pub const BACK: &str = ";
END_RULEBLOCK
END_FUNCTION_BLOCK
";

/// The text from its default to its first condition.
pub const OPENED: &str = "0; END_DEFUZZIFY\nRULEBLOCK r\nRULE 1 : IF ";

/// Eight NOT, which leave the truth as it is.
pub const NOTS: &str = "NOT NOT NOT NOT NOT NOT NOT NOT ";

/// The condition and the conclusion of its first rule.
pub const COLD: &str = "t IS cold THEN power IS off";

/// A block that keeps its answer when no rule fires.
pub const LATCH: &str = "FUNCTION_BLOCK n
VAR_INPUT t : REAL; END_VAR
VAR_OUTPUT power : REAL; END_VAR
FUZZIFY t
  RANGE := (0 .. 256);
  TERM mid := (64, 0) (64, 1);
  TERM hot := (192, 0) (192, 1);
END_FUZZIFY
DEFUZZIFY power TERM off := 0; TERM on := 100; METHOD : COGS; DEFAULT := NC; END_DEFUZZIFY
RULEBLOCK r
RULE 1 : IF t IS NOT mid THEN power IS on;
RULE 2 : IF t IS hot THEN power IS off;
END_RULEBLOCK
END_FUNCTION_BLOCK
";

/// The heater with a second input, which one rule uses: it has no strength before 18 o'clock, and degree 1 after.
pub const LATE: &str = "FUNCTION_BLOCK heater
VAR_INPUT too_cold, hour : REAL; END_VAR
VAR_OUTPUT power : REAL; END_VAR
FUZZIFY too_cold TERM warm := (0, 1) (256, 0); TERM cold := (0, 0) (256, 1); END_FUZZIFY
FUZZIFY hour RANGE := (0 .. 24); TERM late := (18, 0) (18, 1); END_FUZZIFY
DEFUZZIFY power TERM off := 0; TERM full := 100; METHOD : COGS; DEFAULT := 0; END_DEFUZZIFY
RULEBLOCK rules
RULE 1 : IF too_cold IS warm THEN power IS off;
RULE 2 : IF too_cold IS cold THEN power IS full;
RULE 3 : IF hour IS late THEN power IS off;
END_RULEBLOCK
END_FUNCTION_BLOCK
";

/// The records of the heater's image.
pub const RECORDS: &str = "S0070000465A3132F5
S123C000CF200079100010EFB6100027FB16C01679100020F30BCED000CD1100B6100101E6
S123C02001791102791103CED800CD110086FF10FD183ACED200CD1102C602183C8E000050
S110C040270511B7642002C6007B10103DD7
S10BD00000FF000100FF010024
S105D20000FF29
S10BD80000FE02FE01FE03FF1D
S105FFF2C01534
S105FFFEC0003D
S5030008F4
S903C0003C
";

/// The records of its mailbox form: one byte is copied, from `$1020` to `$1001`, and EVAL is at `$C020`.
pub const MAILBOX_RECORDS: &str = "S0070000465A3132F5
S123C000CF200079102810EFB6102827FB1410180C1020100179102810EF16C02020E90B2A
S123C020CED000CD1100B610010101791102791103CED800CD110086FF10FD183ACED20096
S11AC040CD1102C602183C8E0000270511B7642002C6007B10103D43
S10BD00000FF000100FF010024
S105D20000FF29
S10BD80000FE02FE01FE03FF1D
S105FFF2C01F2A
S105FFFEC0003D
S5030008F4
S903C0003C
";

/// The records with watched tables: after IRQ's RTI come BAD at `$C016`, the check at `$C021`, which adds 2 to the
/// sum of the tables' bytes, 254, and EVAL at `$C048`.
pub const WATCHED_RECORDS: &str = "S0070000465A3132F5
S123C000CF200079100010EFB6100027FB16C02179100020F30BC6017B1030C6007B10103C
S123C0203DC600CED000EB308ED00826F9CED200EB308ED20226F9CED800EB308ED808262A
S123C040F9CB0226D1791030CED000CD1100B610010101791102791103CED800CD110086FE
S122C060FF10FD183ACED200CD1102C602183C8E0000270511B7642002C6007B10103D1D
S10BD00000FF000100FF010024
S105D20000FF29
S10BD80000FE02FE01FE03FF1D
S105FFF2C01534
S105FFFEC0003D
S5030009F3
S903C0003C
";

/// The records of the heater at both levels. The fast one has its code at `$4000`, its tables from `$5000` on and its
/// bytes from `$1400` on, and the interrupt's vector points to it.
pub const RECORDS_OF_BOTH: &str = "S0070000465A3132F5
S123400010EFCE5000CD1500B614010101791502791503CE5800CD150086FF10FD183ACEF5
S11C40205200CD1502C602183C8E0000270511B7642002C6007B14100BB9
S10B500000FF000100FF0100A4
S105520000FFA9
S10B580000FE02FE01FE03FF9D
S123C000CF200079100010EFB6100027FB16C01679100020F30BCED000CD1100B6100101E6
S123C02001791102791103CED800CD110086FF10FD183ACED200CD1102C602183C8E000050
S110C040270511B7642002C6007B10103DD7
S10BD00000FF000100FF010024
S105D20000FF29
S10BD80000FE02FE01FE03FF1D
S105FFF24000C9
S105FFFEC0003D
S503000DEF
S903C0003C
";

/// The records of the heater's image with another byte at `$D201`.
pub const RECORDS_OF_ANOTHER: &str = "S0070000465A3132F5
S123C000CF200079100010EFB6100027FB16C01679100020F30BCED000CD1100B6100101E6
S123C02001791102791103CED800CD110086FF10FD183ACED200CD1102C602183C8E000050
S110C040270511B7642002C6007B10103DD7
S10BD00000FF000100FF010024
S105D20000FE2A
S10BD80000FE02FE01FE03FF1D
S105FFF2C01534
S105FFFEC0003D
S5030008F4
S903C0003C
";

/// A source that ends in a branch to itself.
pub const SOURCE: &str = " ORG $C000
 LDAA #$05
 COMA
DONE BRA DONE
 ORG $FFFE
 FDB $C000
";

/// The records of its image.
pub const SOURCE_RECORDS: &str = "S0070000465A3132F5
S108C00086054120FE4D
S105FFFEC0003D
S5030002FA
S903C0003C
";

/// The lines of the heater's certificate after the first two.
pub const HALVES: &str = "split 1 128\nleaf 1 127\nleaf 2 127\n";

/// A tight certificate of the heater, cell by cell.
pub const CELLS: &str =
    "FZC 3\nclaim 3907\nsplit 1 128\nsplit 1 64\ncells\ncells\nsplit 1 192\ncells\ncells\n";

/// The heater with half the weight on its first rule.
pub const HALF_WEIGHT: [&str; 6] = [FRONT, "0", MIDDLE, " WITH 0.5", SECOND, BACK];

/// The lines of the certificate of [`LATCH`] after the first two.
pub const NODES_OF_THE_LATCH: &str = "split 1 64\nleaf 1 255\nsplit 1 192\nleaf 0 0\nleaf 2 255\n";

/// A block with two inputs and two outputs: `power` depends on `t` as in the heater, `valve` on `u`, up to 30 of 100.
pub const TWO_OUTPUTS: &str = "FUNCTION_BLOCK b
VAR_INPUT t, u : REAL; END_VAR
VAR_OUTPUT power, valve : REAL; END_VAR
FUZZIFY t TERM cold := (0, 1) (256, 0); TERM hot := (0, 0) (256, 1); END_FUZZIFY
FUZZIFY u TERM dry := (0, 1) (256, 0); TERM wet := (0, 0) (256, 1); END_FUZZIFY
DEFUZZIFY power TERM off := 0; TERM on := 100; METHOD : COGS; DEFAULT := 0; END_DEFUZZIFY
DEFUZZIFY valve
  RANGE := (0 .. 100);
  TERM shut := 0;
  TERM open := 30;
  METHOD : COGS;
  DEFAULT := 0;
END_DEFUZZIFY
RULEBLOCK r
RULE 1 : IF t IS cold THEN power IS off;
RULE 2 : IF t IS hot THEN power IS on;
RULE 3 : IF u IS dry THEN valve IS open;
RULE 4 : IF u IS wet THEN valve IS shut;
END_RULEBLOCK
END_FUNCTION_BLOCK
";

/// The lines of its certificate after the first two.
pub const QUARTERS: &str = "split 1 128
split 2 128
leaf 1 127 3 127
leaf 1 127 4 127
split 2 128
leaf 2 127 3 127
leaf 2 127 4 127
";

/// A block in which grades differ from degrees. The slope of `cold` is rounded down, so that where its degree is 1,
/// below 56, its grade is between 255 and 200; and the weight of the second rule has the byte 0.
pub const ROUNDED: &str = "FUNCTION_BLOCK c
VAR_INPUT t : REAL; END_VAR
VAR_OUTPUT power : REAL; END_VAR
FUZZIFY t RANGE := (0 .. 256); TERM cold := (56, 1) (256, 0); END_FUZZIFY
DEFUZZIFY power TERM off := 0; TERM on := 100; METHOD : COGS; DEFAULT := 0; END_DEFUZZIFY
RULEBLOCK r
RULE 1 : IF t IS NOT cold THEN power IS on;
RULE 2 : IF t IS cold THEN power IS off WITH 0.005;
END_RULEBLOCK
END_FUNCTION_BLOCK
";
