//! Laws of the mailbox form.
ghost use Rattle.mailbox_code.specs.Mailboxes.{BlocksHaveMailboxes, MailboxesAreOne, MailboxIsBytes};
ghost use Rattle.mailbox_code.specs.{Laws.LowerLaws, Mailboxes.MailboxStepsAreFew};
ghost use Rattle.mailbox_code.specs.{SampleTurns.MailboxTakesSamples, Turns.MailboxIsUninterrupted};
ghost use Rattle.mailbox_code.specs.Turns.{MailboxTakesPosts};

use cpu12_isa::laws::stays_fit;
use eval_code::laws::{blocks_are_placed, bounds_are_few, code_is_decoded};
use firmware_code::laws::{
    called_eval_returns, frames_lead, free_bytes_leave, image_has_firmware, images_are_one,
    instructions_go_on, items_have_images, live_states_wait,
};

/// What the mailbox form depends on.
fn lower_laws()
    ensures { LowerLaws }
{
    stays_fit();
    code_is_decoded();
    instructions_go_on();
    live_states_wait();
    called_eval_returns();
    frames_lead();
    image_has_firmware();
    free_bytes_leave();
}

/// The mailbox firmware of a block takes its turns: it looks at POSTED, copies MAIL while I is 1, and answers the
/// copy within its bounds without accessing the mailbox again.
pub fn mailbox_takes_posts()
    ensures { MailboxTakesPosts }
{
    lower_laws();
}

/// The mailbox firmware of a block, from its first arrival on, answers each sample that is given where it waits in
/// one turn without interrupts.
pub fn mailbox_takes_samples()
    ensures { MailboxTakesSamples }
{
    lower_laws();
    mailbox_takes_posts();
}

/// The uninterrupted answers of the mailbox firmware of a block exist, and are the block's over bytes.
pub fn mailbox_is_uninterrupted()
    ensures { MailboxIsUninterrupted }
{
    mailbox_takes_samples();
}

/// The bound on the steps of a mailbox firmware is at least 1 and at most 20000.
pub fn mailbox_steps_are_few()
    ensures { MailboxStepsAreFew }
{
    bounds_are_few();
}

/// The image of a block's mailbox firmware consists of bytes.
pub fn mailbox_is_bytes()
    ensures { MailboxIsBytes }
{
    lower_laws();
}

/// A block has mailbox firmware of each width.
pub fn blocks_have_mailboxes()
    ensures { BlocksHaveMailboxes }
{
    blocks_are_placed();
    items_have_images()
}

/// Of each width a block has only one mailbox firmware.
pub fn mailboxes_are_one()
    ensures { MailboxesAreOne }
{
    images_are_one()
}
