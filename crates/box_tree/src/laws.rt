//! Laws of the definitions.
ghost use Rattle.box_tree.specs.Laws.{CertsAreOne, CertTextsHaveNoFault, EachTextIsJudged, FaultsAreOne};
ghost use Rattle.box_tree.specs.Laws.{OpenBoxesGoOn};

/// A text has at most one certificate, of one format.
pub fn certs_are_one()
    ensures { CertsAreOne }
{}

/// A text has at most one first fault.
pub fn faults_are_one()
    ensures { FaultsAreOne }
{}

/// A text with a certificate has no fault.
pub fn cert_texts_have_no_fault()
    ensures { CertTextsHaveNoFault }
{}

/// Each text has a certificate or a first fault.
pub fn each_text_is_judged()
    ensures { EachTextIsJudged }
{}

/// More nodes continue with the boxes that those before left open.
pub fn open_boxes_go_on()
    ensures { OpenBoxesGoOn }
{}
