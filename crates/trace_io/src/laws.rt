//! Laws of rows and traces, each the contract of a function that does nothing.
ghost use Rattle.trace_io.specs.OneReading.{EachTextHasFirstRows, EachTextIsJudged, FirstFaultsAreOne, FirstRowsAreOne};
ghost use Rattle.trace_io.specs.OneReading.{SpelledTracesHaveNoFault};

/// A text has only one list of first rows.
pub fn first_rows_are_one()
    ensures { FirstRowsAreOne }
{}

/// Each text has first rows.
pub fn each_text_has_first_rows()
    ensures { EachTextHasFirstRows }
{}

/// A text that spells samples has no fault.
pub fn spelled_traces_have_no_fault()
    ensures { SpelledTracesHaveNoFault }
{
    first_rows_are_one();
}

/// A text has only one first fault.
pub fn first_faults_are_one()
    ensures { FirstFaultsAreOne }
{
    first_rows_are_one();
}

/// Each text spells samples or has a first fault.
pub fn each_text_is_judged()
    ensures { EachTextIsJudged }
{
    each_text_has_first_rows();
}
