//! The laws of each command's output: it is unique, contents that have one have no fault, and accepted ones have one.
ghost use Rattle.build_commands.specs.{Asm.AsmIsSettled, Certify.CertifyIsSettled, Check.CheckIsSettled};
ghost use Rattle.build_commands.specs.{Compile.CompileIsSettled, Exec.ExecIsSettled, Hcheck.HcheckIsSettled};
ghost use Rattle.build_commands.specs.Judged.{AsmIsJudged};
ghost use Rattle.build_commands.specs.Judged.{CertifyIsJudged, CheckIsJudged, CompileIsJudged, ExecIsJudged};
ghost use Rattle.build_commands.specs.{Judged.HcheckIsJudged, Judged.LcompileIsJudged, Lcompile.LcompileIsSettled};

use alone_code::laws::firmware_is_bytes;
use command_parts::laws::{
    blocks_are_exact, blocks_are_judged, certs_are_exact, certs_are_judged, firmwares_are_exact,
    firmwares_are_judged, given_blocks_have_firmware, given_blocks_have_twos,
    given_records_have_no_fault, halvings_are_exact, halvings_are_judged, handlers_are_exact,
    handlers_are_judged, twos_are_exact, twos_are_judged,
};
use cpu12_asm::laws::{ascending_bytes_are_one, each_source_is_judged, sources_give_bytes};
use cpu12_emul::laws::{holds_image, images_load_alike, runs_end_once};
use error_certifier::laws::halvings_are_within_their_targets;
use mailbox_code::laws::mailbox_is_bytes;
use srecord::laws::{faults_are_one, image_texts_are_one, images_are_one, images_have_texts};
use two_level_code::laws::two_stand_beside;
use watched_code::laws::watched_is_bytes;

/// A source has at most one output, and none if it has a fault; if it is accepted it has one.
pub fn asm_is_settled()
    ensures { AsmIsSettled }
{
    images_have_texts();
    image_texts_are_one();
    sources_give_bytes();
    ascending_bytes_are_one()
}

/// A text has at most one output, and none if there is a fault; if halving its block gives a certificate it has one.
pub fn certify_is_settled()
    ensures { CertifyIsSettled }
{
    blocks_are_exact();
    halvings_are_exact();
    halvings_are_within_their_targets()
}

/// Files have at most one output, and none if one has a fault; if they are accepted they have one.
pub fn check_is_settled()
    ensures { CheckIsSettled }
{
    blocks_are_exact();
    certs_are_exact()
}

/// A text has at most one output, and none if it has a fault; if it is accepted it has one.
pub fn compile_is_settled()
    ensures { CompileIsSettled }
{
    firmwares_are_exact();
    given_blocks_have_firmware();
    images_have_texts();
    image_texts_are_one();
    holds_image();
    firmware_is_bytes();
    mailbox_is_bytes();
    watched_is_bytes()
}

/// Records have at most one output, and none if there is a fault; if their run comes to a branch to itself they have
/// one.
pub fn exec_is_settled()
    ensures { ExecIsSettled }
{
    faults_are_one();
    given_records_have_no_fault();
    images_are_one();
    images_load_alike();
    runs_end_once()
}

/// Records have at most one output, and none if there is a fault; if they give a handler they have one.
pub fn hcheck_is_settled()
    ensures { HcheckIsSettled }
{
    handlers_are_exact()
}

/// Texts have at most one output, and none if one has a fault; if they are accepted they have one.
pub fn lcompile_is_settled()
    ensures { LcompileIsSettled }
{
    twos_are_exact();
    given_blocks_have_twos();
    images_have_texts();
    image_texts_are_one();
    holds_image();
    two_stand_beside()
}

/// A text makes an output, or it is refused, or halving its block stops.
pub fn certify_is_judged()
    ensures { CertifyIsJudged }
{
    blocks_are_judged();
    halvings_are_judged();
    certify_is_settled()
}

/// Files make an output, or they are refused.
pub fn check_is_judged()
    ensures { CheckIsJudged }
{
    blocks_are_judged();
    certs_are_judged();
    check_is_settled()
}

/// A text makes an output, or it is refused.
pub fn compile_is_judged()
    ensures { CompileIsJudged }
{
    firmwares_are_judged();
    compile_is_settled()
}

/// Records make an output, or they are refused, or their run ends elsewhere.
pub fn exec_is_judged()
    ensures { ExecIsJudged }
{
    srecord::laws::each_text_is_judged()
}

/// Records make an output, or they are refused.
pub fn hcheck_is_judged()
    ensures { HcheckIsJudged }
{
    handlers_are_judged();
    hcheck_is_settled()
}

/// Texts make an output, or they are refused.
pub fn lcompile_is_judged()
    ensures { LcompileIsJudged }
{
    twos_are_judged();
    lcompile_is_settled()
}

/// A source makes an output, or it is refused.
pub fn asm_is_judged()
    ensures { AsmIsJudged }
{
    each_source_is_judged();
    asm_is_settled()
}
