//! What a text, an image, a handler and a certificate give is unique, and what gives something has no fault.
ghost use Rattle.command_parts.specs.Certs.{CertsAreExact, HalvingsAreExact};
ghost use Rattle.command_parts.specs.Firmwares.{BlocksAreExact, FirmwaresAreExact, GivenBlocksHaveFirmware};
ghost use Rattle.command_parts.specs.Judged.{BlocksAreJudged, CertsAreJudged, FirmwaresAreJudged, HalvingsAreJudged};
ghost use Rattle.command_parts.specs.Judged.{HandlersAreJudged, ImagesAreJudged, TwosAreJudged};
ghost use Rattle.command_parts.specs.{Handlers.HandlersAreExact, Images.GivenRecordsHaveNoFault, Images.ImagesAreExact};
ghost use Rattle.command_parts.specs.{Twos.GivenBlocksHaveTwos, Twos.TwosAreExact, Words.FlagsAreBytes};

use alone_code::laws::{blocks_have_firmware, firmwares_are_one};
use cert_check::laws::{each_cert_text_is_judged, text_answers_are_one};
use error_certifier::laws::{
    answers_for_targets_are_one, cells_are_out_of_reach, each_block_is_halved,
};
use fcl_check::laws::{each_text_is_judged, load_faults_are_one, spelled_blocks_are_one};
use fcl_syntax::laws::first_faults_are_one;
use handler_check::laws::{answers_are_one, each_image_is_judged, handlers_have_no_fault};
use mailbox_code::laws::{blocks_have_mailboxes, mailboxes_are_one};
use rule_layout::laws::limits_have_no_fault;
use srecord::laws::{faults_are_one, images_are_one};
use two_level_code::laws::{blocks_have_twos, twos_are_one};
use watched_code::laws::{blocks_have_watched_firmware, watched_firmwares_are_one};

/// A text that gives a block gives firmware of every form.
pub fn given_blocks_have_firmware()
    ensures { GivenBlocksHaveFirmware }
{
    blocks_have_firmware();
    blocks_have_mailboxes();
    blocks_have_watched_firmware()
}

/// Two texts that give blocks give the firmware of both.
pub fn given_blocks_have_twos()
    ensures { GivenBlocksHaveTwos }
{
    blocks_have_twos()
}

/// Records that give an image have no fault.
pub fn given_records_have_no_fault()
    ensures { GivenRecordsHaveNoFault }
{
    images_are_one()
}

/// A text gives exactly one block, or it is refused.
pub fn blocks_are_exact()
    ensures { BlocksAreExact }
{
    first_faults_are_one();
    load_faults_are_one();
    spelled_blocks_are_one();
    limits_have_no_fault()
}

/// A text gives exactly one block with one firmware of a form, or it is refused.
pub fn firmwares_are_exact()
    ensures { FirmwaresAreExact }
{
    blocks_are_exact();
    firmwares_are_one();
    mailboxes_are_one();
    watched_firmwares_are_one()
}

/// Two texts give exactly one block each and one firmware of both, or one of the texts is refused.
pub fn twos_are_exact()
    ensures { TwosAreExact }
{
    blocks_are_exact();
    twos_are_one()
}

/// A text gives an image, or it is refused.
pub fn images_are_exact()
    ensures { ImagesAreExact }
{
    faults_are_one();
    images_are_one()
}

/// Records give a handler whose bytes are unique, or they are refused.
pub fn handlers_are_exact()
    ensures { HandlersAreExact }
{
    faults_are_one();
    images_are_one();
    given_records_have_no_fault();
    handlers_have_no_fault();
    answers_are_one()
}

/// A certificate is accepted with a unique list of errors, or it is refused.
pub fn certs_are_exact()
    ensures { CertsAreExact }
{
    text_answers_are_one()
}

/// Halving finds a unique certificate of a block within its targets, or it stops.
pub fn halvings_are_exact()
    ensures { HalvingsAreExact }
{
    answers_for_targets_are_one()
}

/// A text of at most 1048576 bytes gives a block, or it is refused.
pub fn blocks_are_judged()
    ensures { BlocksAreJudged }
{
    each_text_is_judged()
}

/// And so with a block and its firmware.
pub fn firmwares_are_judged()
    ensures { FirmwaresAreJudged }
{
    blocks_are_judged();
    given_blocks_have_firmware()
}

/// And with two blocks and the firmware of both.
pub fn twos_are_judged()
    ensures { TwosAreJudged }
{
    blocks_are_judged();
    given_blocks_have_twos()
}

/// Records give the image that they are to give, or they are refused.
pub fn images_are_judged()
    ensures { ImagesAreJudged }
{
    srecord::laws::each_text_is_judged()
}

/// Records give a handler, or they are refused.
pub fn handlers_are_judged()
    ensures { HandlersAreJudged }
{
    srecord::laws::each_text_is_judged();
    each_image_is_judged()
}

/// A certificate is accepted, or it is refused.
pub fn certs_are_judged()
    ensures { CertsAreJudged }
{
    each_cert_text_is_judged()
}

/// Halving ends with a certificate, or it stops.
pub fn halvings_are_judged()
    ensures { HalvingsAreJudged }
{
    each_block_is_halved();
    cells_are_out_of_reach()
}

/// FLAGS that a word spells are a byte.
pub fn flags_are_bytes()
    ensures { FlagsAreBytes }
{}
