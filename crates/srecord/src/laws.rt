//! Laws of the definitions.
ghost use Rattle.srecord.specs.Laws.{EachTextIsJudged, FaultsAreOne, ImagesAreOne, ImagesHaveFewRecords};
ghost use Rattle.srecord.specs.Laws.{ImagesHaveNoFault, ImagesHaveTexts, ImageTextsAreOne};

/// A text gives at most one image, and then it has no fault.
pub fn images_are_one()
    ensures one { ImagesAreOne }
    ensures no_fault { ImagesHaveNoFault }
{}

/// A text has at most one first fault.
pub fn faults_are_one()
    ensures { FaultsAreOne }
{}

/// An image has at most 32768 records of bytes, so their number always fits into its record.
pub fn images_have_few_records()
    ensures { ImagesHaveFewRecords }
{}

/// Each text gives an image or has a fault.
pub fn each_text_is_judged()
    ensures { EachTextIsJudged }
{}

/// An image has at most one text of records.
pub fn image_texts_are_one()
    ensures { ImageTextsAreOne }
{}

/// Bytes of memory at ascending addresses have a text of records with each start.
pub fn images_have_texts()
    ensures { ImagesHaveTexts }
{}
