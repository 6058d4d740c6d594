//! Controllers of two and three inputs.

// The text of a controller from its name, its inputs of three terms each, its output with its terms, and its rules. An
// input's first term is 1 up to the first point, the second at the second point, and the third from the third on, and
// between two points the degrees of two terms cross.
macro_rules! controller {
    ($name:ident
        $(input $input:ident $low:literal to $high:literal: $first:ident $a:literal, $second:ident $b:literal,
            $third:ident $c:literal;)*
        output $output:ident $least:literal to $most:literal: $($term:ident $at:literal),*;
        rules $rules:literal) => {
        concat!(
            "FUNCTION_BLOCK ", stringify!($name), "\n",
            "VAR_INPUT ", $(stringify!($input), " : REAL; ",)* "END_VAR\n",
            "VAR_OUTPUT ", stringify!($output), " : REAL; END_VAR\n",
            $(
                "FUZZIFY ", stringify!($input), " RANGE := (", $low, " .. ", $high, ");\n",
                "TERM ", stringify!($first), " := (", $a, ", 1) (", $b, ", 0);\n",
                "TERM ", stringify!($second), " := (", $a, ", 0) (", $b, ", 1) (", $c, ", 0);\n",
                "TERM ", stringify!($third), " := (", $b, ", 0) (", $c, ", 1);\n",
                "END_FUZZIFY\n",
            )*
            "DEFUZZIFY ", stringify!($output), " RANGE := (", $least, " .. ", $most, ");\n",
            $("TERM ", stringify!($term), " := ", $at, ";\n",)*
            "METHOD : COGS;\nDEFAULT := 0;\nEND_DEFUZZIFY\n",
            "RULEBLOCK rules", $rules, "END_RULEBLOCK\nEND_FUNCTION_BLOCK\n"
        )
    };
}

/// A dryer: three inputs of three terms each, and a rule for each three of them.
pub const DRYER: &str = controller! {
    dryer
    input moisture 0 to 100: dry 0, damp 50, wet 100;
    input air 10 to 90: cold 10, warm 50, hot 90;
    input load 0 to 8: light 0, half 4, full 8;
    output heat 0 to 100: off 0, low 25, mid 50, high 75, max 100;
    rules "
RULE 1 : IF moisture IS dry AND air IS cold AND load IS light THEN heat IS low;
RULE 2 : IF moisture IS dry AND air IS cold AND load IS half THEN heat IS low;
RULE 3 : IF moisture IS dry AND air IS cold AND load IS full THEN heat IS mid;
RULE 4 : IF moisture IS dry AND air IS warm AND load IS light THEN heat IS off;
RULE 5 : IF moisture IS dry AND air IS warm AND load IS half THEN heat IS low;
RULE 6 : IF moisture IS dry AND air IS warm AND load IS full THEN heat IS low;
RULE 7 : IF moisture IS dry AND air IS hot AND load IS light THEN heat IS off;
RULE 8 : IF moisture IS dry AND air IS hot AND load IS half THEN heat IS off;
RULE 9 : IF moisture IS dry AND air IS hot AND load IS full THEN heat IS low;
RULE 10 : IF moisture IS damp AND air IS cold AND load IS light THEN heat IS mid;
RULE 11 : IF moisture IS damp AND air IS cold AND load IS half THEN heat IS mid;
RULE 12 : IF moisture IS damp AND air IS cold AND load IS full THEN heat IS high;
RULE 13 : IF moisture IS damp AND air IS warm AND load IS light THEN heat IS low;
RULE 14 : IF moisture IS damp AND air IS warm AND load IS half THEN heat IS mid;
RULE 15 : IF moisture IS damp AND air IS warm AND load IS full THEN heat IS mid;
RULE 16 : IF moisture IS damp AND air IS hot AND load IS light THEN heat IS low;
RULE 17 : IF moisture IS damp AND air IS hot AND load IS half THEN heat IS low;
RULE 18 : IF moisture IS damp AND air IS hot AND load IS full THEN heat IS mid;
RULE 19 : IF moisture IS wet AND air IS cold AND load IS light THEN heat IS high;
RULE 20 : IF moisture IS wet AND air IS cold AND load IS half THEN heat IS high;
RULE 21 : IF moisture IS wet AND air IS cold AND load IS full THEN heat IS max;
RULE 22 : IF moisture IS wet AND air IS warm AND load IS light THEN heat IS mid;
RULE 23 : IF moisture IS wet AND air IS warm AND load IS half THEN heat IS high;
RULE 24 : IF moisture IS wet AND air IS warm AND load IS full THEN heat IS high;
RULE 25 : IF moisture IS wet AND air IS hot AND load IS light THEN heat IS mid;
RULE 26 : IF moisture IS wet AND air IS hot AND load IS half THEN heat IS mid;
RULE 27 : IF moisture IS wet AND air IS hot AND load IS full THEN heat IS high;
"
};

/// A pump of three inputs, whose terms have shoulders; its rules ask for some of them.
pub const PUMP: &str = controller! {
    pump
    input level 0 to 4: low 1, good 2, high 3;
    input inflow 0 to 256: weak 64, usual 128, strong 192;
    input price 0 to 64: cheap 16, fair 32, dear 48;
    output speed 0 to 3000: stop 0, slow 1000, brisk 2000, fast 3000;
    rules "
RULE 1 : IF level IS low AND inflow IS NOT strong THEN speed IS stop;
RULE 2 : IF level IS low AND inflow IS strong AND price IS cheap THEN speed IS slow;
RULE 3 : IF level IS low AND inflow IS strong AND price IS NOT cheap THEN speed IS stop;
RULE 4 : IF level IS good AND inflow IS weak AND price IS cheap THEN speed IS slow;
RULE 5 : IF level IS good AND inflow IS weak AND price IS NOT cheap THEN speed IS stop;
RULE 6 : IF level IS good AND inflow IS usual AND price IS cheap THEN speed IS brisk;
RULE 7 : IF level IS good AND inflow IS usual AND price IS fair THEN speed IS slow;
RULE 8 : IF level IS good AND inflow IS usual AND price IS dear THEN speed IS stop;
RULE 9 : IF level IS good AND inflow IS strong AND price IS NOT dear THEN speed IS brisk;
RULE 10 : IF level IS good AND inflow IS strong AND price IS dear THEN speed IS slow;
RULE 11 : IF level IS high AND inflow IS weak AND price IS dear THEN speed IS slow;
RULE 12 : IF level IS high AND inflow IS weak AND price IS NOT dear THEN speed IS brisk;
RULE 13 : IF level IS high AND inflow IS usual THEN speed IS brisk;
RULE 14 : IF level IS high AND inflow IS strong THEN speed IS fast;
"
};

/// A blind of three inputs, whose slopes are 76.8 bytes wide.
pub const BLIND: &str = controller! {
    blind
    input sun 0 to 1000: dull 200, clear 500, glaring 800;
    input room 15 to 30: cool 18, right 21, warm 24;
    input wind 0 to 20: calm 5, breeze 10, storm 15;
    output close 0 to 100: open 0, third 30, most 70, shut 100;
    rules "
RULE 1 : IF sun IS dull AND wind IS NOT storm THEN close IS open;
RULE 2 : IF sun IS clear AND room IS cool AND wind IS NOT storm THEN close IS open;
RULE 3 : IF sun IS clear AND room IS right AND wind IS NOT storm THEN close IS third;
RULE 4 : IF sun IS clear AND room IS warm AND wind IS calm THEN close IS most;
RULE 5 : IF sun IS clear AND room IS warm AND wind IS breeze THEN close IS third;
RULE 6 : IF sun IS glaring AND room IS cool AND wind IS NOT storm THEN close IS third;
RULE 7 : IF sun IS glaring AND room IS right AND wind IS NOT storm THEN close IS most;
RULE 8 : IF sun IS glaring AND room IS warm AND wind IS calm THEN close IS shut;
RULE 9 : IF sun IS glaring AND room IS warm AND wind IS breeze THEN close IS most;
RULE 10 : IF wind IS storm THEN close IS open;
"
};

/// A room with a fan and a lamp: two outputs, the lamp by one input.
pub const ROOM: &str = "FUNCTION_BLOCK room
VAR_INPUT warmth, dark : REAL; END_VAR
VAR_OUTPUT fan, lamp : REAL; END_VAR
FUZZIFY warmth RANGE := (0 .. 32);
TERM cool := (8, 1) (16, 0);
TERM mild := (8, 0) (16, 1) (24, 0);
TERM hot := (16, 0) (24, 1);
END_FUZZIFY
FUZZIFY dark RANGE := (0 .. 1);
TERM day := (0, 1) (1, 0);
TERM night := (0, 0) (1, 1);
END_FUZZIFY
DEFUZZIFY fan RANGE := (0 .. 100);
TERM off := 0;
TERM half := 50;
TERM full := 100;
METHOD : COGS;
DEFAULT := 0;
END_DEFUZZIFY
DEFUZZIFY lamp RANGE := (0 .. 100);
TERM out := 0;
TERM lit := 80;
METHOD : COGS;
DEFAULT := 0;
END_DEFUZZIFY
RULEBLOCK rules
RULE 1 : IF warmth IS cool THEN fan IS off;
RULE 2 : IF warmth IS mild AND dark IS day THEN fan IS half;
RULE 3 : IF warmth IS mild AND dark IS night THEN fan IS off;
RULE 4 : IF warmth IS hot AND dark IS day THEN fan IS full;
RULE 5 : IF warmth IS hot AND dark IS night THEN fan IS half;
RULE 6 : IF dark IS day THEN lamp IS out;
RULE 7 : IF dark IS night THEN lamp IS lit;
END_RULEBLOCK
END_FUNCTION_BLOCK
";
