//! Numbers whose workloads are run, and words that are no 32-bit number.
use std::alloc::Global;
use std::test::Fail;
use test_program_calls::{Difference, Left, NONE, USAGE, call, rows, shelf_of};

/// A word, and what the call leaves.
#[derive(Clone, Copy)]
struct Draw {
    word: &'static str,
    left: Left<'static>,
}

/// A word that is no number.
const WORD: Draw = Draw {
    word: "",
    left: USAGE,
};

// The sums were worked out from the draws, the tables of the terms, the rules, and the steps of a sample. The five
// numbers shift the rules' conclusions by 2, 0, 1, 3 and 4.
static SMALL: [Draw; 3] = rows! { Draw:
    WORD { word: "0" }
        leaves "gen 0\nerror 1 357753\ninstructions 48\nsamples 1000\nframes 1000\nresumed 900\nsum 127719\n";
    WORD { word: "2" }
        leaves "gen 2\nerror 1 357753\ninstructions 48\nsamples 1000\nframes 1000\nresumed 893\nsum 128875\n";
    WORD { word: "4" }
        leaves "gen 4\nerror 1 357753\ninstructions 48\nsamples 1000\nframes 1000\nresumed 895\nsum 127150\n";
};

static OTHERS: [Draw; 5] = rows! { Draw:
    WORD { word: "007" }
        leaves "gen 7\nerror 1 357753\ninstructions 48\nsamples 1000\nframes 1000\nresumed 900\nsum 127051\n";
    WORD { word: "4294967295" }
        leaves "gen 4294967295\nerror 1 357753\ninstructions 48\nsamples 1000\nframes 1000\nresumed 875\nsum 127905\n";
    WORD { word: "4294967296" };
    WORD {};
    WORD { word: "+7" };
};

fn run_draws(alloc: Global, rows: &[Draw]) -> Result<(), Difference> {
    for row in rows {
        let mut shelf = shelf_of(alloc, Vec::new(alloc), &NONE)?;
        let line = ["fuzz12", "gen", row.word];
        call(alloc, &line, &mut shelf, &NONE, &row.left)?;
    }
    Ok(())
}

#[test]
fn small_numbers(rt: HostRuntime) -> Result<(), Fail> {
    run_draws(rt.alloc(), SMALL.as_slice())?;
    Ok(())
}

#[test]
fn other_numbers(rt: HostRuntime) -> Result<(), Fail> {
    run_draws(rt.alloc(), OTHERS.as_slice())?;
    Ok(())
}
