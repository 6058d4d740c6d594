//! The laws of the commands' output, each the contract of a function that does nothing.
ghost use Rattle.fz_top.specs.{Accepted.CommandsAreSettled, Judged.ContentsAreJudged, Judged.ContentsHaveOneResult};

use build_commands::laws::{
    asm_is_judged, asm_is_settled, certify_is_judged, certify_is_settled, check_is_judged,
    check_is_settled, compile_is_judged, compile_is_settled, exec_is_judged, exec_is_settled,
    hcheck_is_judged, hcheck_is_settled, lcompile_is_judged, lcompile_is_settled,
};
use form_commands::laws::{
    hrun_is_judged, hrun_is_settled, lrun_is_judged, lrun_is_settled, mrun_is_judged,
    mrun_is_settled, srun_is_judged, srun_is_settled,
};
use run_commands::laws::{
    debug_is_judged, debug_is_settled, generate_is_judged, generate_is_settled, run_is_judged,
    run_is_settled,
};

/// Contents have at most one output, and none if there is a fault; if they are accepted they have one. They have at
/// most one fault.
pub fn commands_are_settled()
    ensures { CommandsAreSettled }
{
    asm_is_settled();
    certify_is_settled();
    check_is_settled();
    compile_is_settled();
    debug_is_settled();
    exec_is_settled();
    generate_is_settled();
    hcheck_is_settled();
    hrun_is_settled();
    lcompile_is_settled();
    lrun_is_settled();
    mrun_is_settled();
    run_is_settled();
    srun_is_settled()
}

/// The contents of any command's files have an output or a refusal, which is never for lack of memory.
pub fn contents_are_judged()
    ensures { ContentsAreJudged }
{
    asm_is_judged();
    certify_is_judged();
    check_is_judged();
    compile_is_judged();
    debug_is_judged();
    exec_is_judged();
    generate_is_judged();
    hcheck_is_judged();
    hrun_is_judged();
    lcompile_is_judged();
    lrun_is_judged();
    mrun_is_judged();
    run_is_judged();
    srun_is_judged()
}

/// All contents have at most one result: two outputs are the same, two refusals have the same status, and no output
/// stands beside a refusal.
pub fn contents_have_one_result()
    ensures { ContentsHaveOneResult }
{
    commands_are_settled()
}
