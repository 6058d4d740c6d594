//! The laws of each command's output: it is unique, contents that have one have no fault, and accepted ones have one.
ghost use Rattle.run_commands.specs.{Debug.DebugIsSettled, Generate.GenerateIsSettled};
ghost use Rattle.run_commands.specs.Run.{AcceptedRunsMakeOutput, RunIsSettled};
ghost use Rattle.run_commands.specs.Judged.{DebugIsJudged, GenerateIsJudged, RunIsJudged};

use alone_code::laws::firmwares_are_one;
use alone_runs::laws::answers_under_plans;
use command_parts::laws::{
    certs_are_exact, firmwares_are_exact, firmwares_are_judged, given_blocks_have_firmware,
    halvings_are_exact, halvings_are_judged, images_are_exact, images_are_judged,
};
use run_reports::laws::{
    answers_are_reported, plans_are_exact, plans_are_judged, run_files_are_judged,
    spelled_bytes_fit, traces_are_exact, traces_are_judged,
};
use workload::laws::{drawn_blocks_are_within_limits, numbers_have_workloads, workloads_are_one};

/// A number has at most one output, and none if there is a fault; if halving its block gives a certificate it has one.
pub fn generate_is_settled()
    ensures { GenerateIsSettled }
{
    halvings_are_exact();
    workloads_are_one();
    firmwares_are_one();
    answers_are_reported();
    answers_under_plans();
    numbers_have_workloads();
    drawn_blocks_are_within_limits();
    given_blocks_have_firmware()
}

/// Files have at most one output, and none if one has a fault; if they are accepted they have one.
pub fn debug_is_settled()
    ensures { DebugIsSettled }
{
    firmwares_are_exact();
    images_are_exact();
    traces_are_exact();
    plans_are_exact();
    spelled_bytes_fit();
    answers_under_plans()
}

/// Accepted files have an output.
pub fn accepted_runs_make_output()
    ensures { AcceptedRunsMakeOutput }
{
    answers_are_reported();
    answers_under_plans()
}

/// Files have at most one output, and none if one has a fault; if they are accepted they have one.
pub fn run_is_settled()
    ensures { RunIsSettled }
{
    firmwares_are_exact();
    images_are_exact();
    certs_are_exact();
    traces_are_exact();
    plans_are_exact();
    answers_are_reported();
    answers_under_plans()
}

/// A number makes an output, or halving its block stops.
pub fn generate_is_judged()
    ensures { GenerateIsJudged }
{
    numbers_have_workloads();
    halvings_are_judged();
    generate_is_settled()
}

/// Files make an output, or they are refused.
pub fn debug_is_judged()
    ensures { DebugIsJudged }
{
    firmwares_are_judged();
    images_are_judged();
    traces_are_judged();
    plans_are_judged();
    debug_is_settled()
}

/// Files make an output, or they are refused.
pub fn run_is_judged()
    ensures { RunIsJudged }
{
    run_files_are_judged();
    run_is_settled()
}
