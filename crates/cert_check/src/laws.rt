//! Laws of the definitions.
ghost use Rattle.cert_check.specs.Laws.{OneLeafHasTheBytes, AcceptedAnswersAreNear, ErrorsAreDetermined};
ghost use Rattle.cert_check.specs.Laws.{FaultyCertsFail, CheckFaultsAreOne, TextAnswersAreOne, NamedCertsHaveNoCells};
ghost use Rattle.cert_check.specs.Laws.{WideIsAccepted, WideTextsAreAccepted, TightIsAccepted, TightTextsAreAccepted};
ghost use Rattle.cert_check.specs.Laws.{EachCertIsJudged, EachCertTextIsJudged, BoundedTreesAreAccepted};
ghost use Rattle.cert_check.specs.BoxLaws.{CutsHaveHalves, LeavesAreAround};
ghost use Rattle.cert_check.specs.{Examples.ExamplesAreAccepted};

use box_tree::laws::{
    cert_texts_have_no_fault, certs_are_one, each_text_is_judged, faults_are_one,
};
use byte_scaling::laws::numbers_lie_in_their_cells;
use cell_bounds::laws::{
    claim_answers_are_near, claim_bounds_are_one, claim_bounds_fall_with_parts,
    each_box_has_a_cells_bound, tight_claims_are_least,
};
use error_bound::laws::{
    each_box_has_a_tight_count, each_leaf_is_judged, faulty_leaves_fail, leaf_faults_are_one,
    term_errors_are,
};
use fuzzy_meaning::laws::examples_are_valid;

/// Each list of bytes in a box is in exactly one leaf of a tree over the box.
pub fn one_leaf_has_the_bytes()
    ensures { OneLeafHasTheBytes }
{}

/// Under an accepted certificate the answers over bytes to every list of samples in range, as bytes
/// or in 16 bits, are within its errors of the exact answers.
pub fn accepted_answers_are_near()
    ensures { AcceptedAnswersAreNear }
{
    numbers_lie_in_their_cells();
    claim_answers_are_near();
}

/// The errors that a certificate is accepted with are unique.
pub fn errors_are_determined()
    ensures { ErrorsAreDetermined }
{
    claim_bounds_are_one();
}

/// A certificate with a fault is not accepted.
pub fn faulty_certs_fail()
    ensures { FaultyCertsFail }
{
    faulty_leaves_fail();
    claim_bounds_are_one();
}

/// A certificate without leaves of cells that is accepted for bytes is accepted for 16 bits, with no
/// greater error.
pub fn wide_is_accepted()
    ensures { WideIsAccepted }
{
    claim_bounds_fall_with_parts();
}

/// The text of such a certificate is accepted too when its first line is changed.
pub fn wide_texts_are_accepted()
    ensures { WideTextsAreAccepted }
{
    wide_is_accepted();
}

/// No leaf of a plain certificate is one of cells.
pub fn named_certs_have_no_cells()
    ensures { NamedCertsHaveNoCells }
{}

/// An accepted certificate is still accepted when its leaves that name rules become tight, with no
/// greater error.
pub fn tight_is_accepted()
    ensures { TightIsAccepted }
{
    tight_claims_are_least();
}

/// The text of an accepted plain certificate is accepted too when its first line is changed, and the
/// line of each leaf becomes that of a tight leaf.
pub fn tight_texts_are_accepted()
    ensures { TightTextsAreAccepted }
{
    tight_is_accepted();
}

/// There is an accepted certificate, with known errors.
pub fn examples_are_accepted()
    ensures { ExamplesAreAccepted }
{
    examples_are_valid();
    term_errors_are();
}

/// A certificate has at most one first fault.
pub fn check_faults_are_one()
    ensures { CheckFaultsAreOne }
{
    leaf_faults_are_one();
    faulty_leaves_fail();
    claim_bounds_are_one();
}

/// Each certificate is accepted or has a fault.
pub fn each_cert_is_judged()
    ensures { EachCertIsJudged }
{
    each_leaf_is_judged();
    term_errors_are();
    each_box_has_a_tight_count();
    each_box_has_a_cells_bound();
}

/// A tree whose leaves all have a Bound for each output is accepted with some claims and errors.
pub fn bounded_trees_are_accepted()
    ensures { BoundedTreesAreAccepted }
{}

/// Each text is accepted with some errors, or is refused for some reason.
pub fn each_cert_text_is_judged()
    ensures { EachCertTextIsJudged }
{
    each_text_is_judged();
    each_cert_is_judged();
}

/// The errors that a text is accepted with, or the reason why it is refused, are unique.
pub fn text_answers_are_one()
    ensures { TextAnswersAreOne }
{
    faulty_leaves_fail();
    claim_bounds_are_one();
    certs_are_one();
    faults_are_one();
    cert_texts_have_no_fault();
    check_faults_are_one();
}

/// A cut inside an interval of a box gives two halves, which are boxes again.
pub fn cuts_have_halves()
    ensures { CutsHaveHalves }
{}

/// Under an accepted certificate each list of bytes is, for each output, in the box of a leaf that
/// holds, with a Bound of at most the output's error.
pub fn leaves_are_around()
    ensures { LeavesAreAround }
{}
