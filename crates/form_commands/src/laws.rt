//! The laws of each command's output: it is unique, contents that have one have no fault, and accepted ones have one.
ghost use Rattle.form_commands.specs.Lrun.{LrunIsSettled};
ghost use Rattle.form_commands.specs.Mrun.{MrunIsSettled};
ghost use Rattle.form_commands.specs.Srun.{SrunIsSettled};
ghost use Rattle.form_commands.specs.Hrun.{HrunIsSettled};
ghost use Rattle.form_commands.specs.Judged.{HrunIsJudged, LrunIsJudged, MrunIsJudged, SrunIsJudged};

use alone_runs::laws::answers_under_plans;
use command_parts::laws::{
    certs_are_exact, firmwares_are_exact, handlers_are_exact, images_are_exact, twos_are_exact,
};
use handled_runs::laws::{handled_answers, handlers_run_alike};
use interrupt_plan::laws::{
    first_faults_are_one, spelled_entries_are_one, spelled_levels_have_no_fault,
    spelled_posts_have_no_fault, spelled_upsets_have_no_fault,
};
use mailbox_runs::laws::{last_is_answered, posts_are_answered};
use run_reports::laws::{
    answers_are_reported, answers_keep_the_bound, faultless_answers_are_near,
    handled_files_are_judged, mailbox_answers_are_near, mailbox_files_are_judged, plans_are_exact,
    spelled_bytes_fit, traces_are_exact, two_level_files_are_judged, watched_files_are_judged,
};
use two_level_code::laws::alone_has_byte_bounds;
use two_level_runs::laws::{answers_under_levels, levels_make_a_plan, rows_are_seen};
use watched_runs::laws::answers_under_all_upsets;

/// Files have at most one output, and none if one has a fault; if they are accepted they have one.
pub fn lrun_is_settled()
    ensures { LrunIsSettled }
{
    twos_are_exact();
    images_are_exact();
    certs_are_exact();
    traces_are_exact();
    spelled_entries_are_one();
    spelled_levels_have_no_fault();
    first_faults_are_one();
    answers_are_reported();
    answers_keep_the_bound();
    spelled_bytes_fit();
    mailbox_answers_are_near();
    answers_under_plans();
    levels_make_a_plan();
    rows_are_seen();
    alone_has_byte_bounds();
    answers_under_levels()
}

/// Files have at most one output, and none if one has a fault; if they are accepted they have one.
pub fn mrun_is_settled()
    ensures { MrunIsSettled }
{
    firmwares_are_exact();
    images_are_exact();
    certs_are_exact();
    traces_are_exact();
    spelled_entries_are_one();
    spelled_posts_have_no_fault();
    first_faults_are_one();
    answers_keep_the_bound();
    spelled_bytes_fit();
    mailbox_answers_are_near();
    last_is_answered();
    posts_are_answered()
}

/// Files have at most one output, and none if one has a fault; if they are accepted they have one.
pub fn srun_is_settled()
    ensures { SrunIsSettled }
{
    firmwares_are_exact();
    images_are_exact();
    certs_are_exact();
    traces_are_exact();
    plans_are_exact();
    spelled_entries_are_one();
    spelled_upsets_have_no_fault();
    first_faults_are_one();
    faultless_answers_are_near();
    spelled_bytes_fit();
    answers_under_all_upsets()
}

/// Files have at most one output, and none if one has a fault; if they are accepted they have one.
pub fn hrun_is_settled()
    ensures { HrunIsSettled }
{
    firmwares_are_exact();
    handlers_are_exact();
    certs_are_exact();
    traces_are_exact();
    plans_are_exact();
    answers_are_reported();
    answers_under_plans();
    spelled_bytes_fit();
    handled_answers();
    handlers_run_alike()
}

/// Files make an output, or they are refused.
pub fn hrun_is_judged()
    ensures { HrunIsJudged }
{
    handled_files_are_judged();
    hrun_is_settled()
}

/// Files make an output, or they are refused.
pub fn mrun_is_judged()
    ensures { MrunIsJudged }
{
    mailbox_files_are_judged();
    mrun_is_settled()
}

/// Files make an output, or they are refused.
pub fn srun_is_judged()
    ensures { SrunIsJudged }
{
    watched_files_are_judged();
    srun_is_settled()
}

/// Files make an output, or they are refused.
pub fn lrun_is_judged()
    ensures { LrunIsJudged }
{
    two_level_files_are_judged();
    lrun_is_settled()
}
