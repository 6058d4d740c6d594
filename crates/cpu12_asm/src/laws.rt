//! Laws of the definitions.
ghost use Rattle.cpu12_asm.specs.Labels.{EquatesAreValues, LabelsArePlaces, LinesStand};
ghost use Rattle.cpu12_asm.specs.Laws.{AscendingBytesAreOne, EachSourceIsJudged, SourcesGiveBytes, SourcesHaveOneFault};
ghost use Rattle.cpu12_asm.specs.Rising.{RisesBehindFirst, EndsInMemory, RisesBehindPart, RisingBytesAscend};

/// A label has the address of its line, at which the line's bytes are in the image, and the name of an `EQU` the
/// value of its expression.
pub fn labels_are_places()
    ensures labels { LabelsArePlaces }
    ensures equates { EquatesAreValues }
    ensures lines { LinesStand }
{}

/// A source has at most one first fault, and none if it gives an image.
pub fn sources_have_one_fault()
    ensures { SourcesHaveOneFault }
{}

/// Each source gives the bytes of an image, or has a fault.
pub fn each_source_is_judged()
    ensures { EachSourceIsJudged }
{}

/// Items that never go back to a lower address end within the memory, and so do their parts. Their bytes ascend.
pub fn rising_items()
    ensures first { RisesBehindFirst }
    ensures end { EndsInMemory }
    ensures part { RisesBehindPart }
    ensures ascend { RisingBytesAscend }
{}

/// Two lists of bytes whose addresses ascend are equal if at each address both have the same byte or none.
pub fn ascending_bytes_are_one()
    ensures { AscendingBytesAreOne }
{}

/// Whatever a source gives is a byte.
pub fn sources_give_bytes()
    ensures { SourcesGiveBytes }
{}
