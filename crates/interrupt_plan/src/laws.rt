//! Laws of plans, each the contract of a function that does nothing.
ghost use Rattle.interrupt_plan.specs.OneReading.{EachLevelsTextIsJudged, EachPlanTextIsJudged, EachPostsTextIsJudged};
ghost use Rattle.interrupt_plan.specs.OneReading.{EachUpsetsTextIsJudged};
ghost use Rattle.interrupt_plan.specs.OneReading.{LevelFaultsAreOne, PlanFaultsAreOne, PostFaultsAreOne};
ghost use Rattle.interrupt_plan.specs.OneReading.{SpelledLevelsHaveNoFault, SpelledPlansHaveNoFault};
ghost use Rattle.interrupt_plan.specs.OneReading.{SpelledLevelsAreOne, SpelledPlansAreOne, SpelledPostsAreOne};
ghost use Rattle.interrupt_plan.specs.OneReading.{SpelledPostsHaveNoFault, SpelledUpsetsAreOne, UpsetFaultsAreOne};
ghost use Rattle.interrupt_plan.specs.UpsetTexts.{SpelledUpsetsHaveNoFault};

/// A text that spells a plan has no fault.
pub fn spelled_plans_have_no_fault()
    ensures { SpelledPlansHaveNoFault }
{
    trace_io::laws::first_rows_are_one();
}

/// A text that spells posts has no fault.
pub fn spelled_posts_have_no_fault()
    ensures { SpelledPostsHaveNoFault }
{
    trace_io::laws::first_rows_are_one();
}

/// A text that spells levels has no fault.
pub fn spelled_levels_have_no_fault()
    ensures { SpelledLevelsHaveNoFault }
{
    trace_io::laws::first_rows_are_one();
}

/// A text that spells upsets of an image has no fault for it.
pub fn spelled_upsets_have_no_fault()
    ensures { SpelledUpsetsHaveNoFault }
{
    trace_io::laws::first_rows_are_one();
}

/// A text has only one first fault: as a plan, as posts, as levels, and as upsets of an image.
pub fn first_faults_are_one()
    ensures plans { PlanFaultsAreOne }
    ensures posts { PostFaultsAreOne }
    ensures levels { LevelFaultsAreOne }
    ensures upsets { UpsetFaultsAreOne }
{
    trace_io::laws::first_rows_are_one();
}

/// A text spells only one plan, and one list of posts, of levels, and of upsets of an image.
pub fn spelled_entries_are_one()
    ensures plans { SpelledPlansAreOne }
    ensures posts { SpelledPostsAreOne }
    ensures levels { SpelledLevelsAreOne }
    ensures upsets { SpelledUpsetsAreOne }
{
    trace_io::laws::first_rows_are_one();
}

/// Each text spells a plan or has a first fault, and the same holds for posts, for levels, and for upsets of an
/// image.
pub fn each_text_is_judged()
    ensures plans { EachPlanTextIsJudged }
    ensures posts { EachPostsTextIsJudged }
    ensures levels { EachLevelsTextIsJudged }
    ensures upsets { EachUpsetsTextIsJudged }
{
    trace_io::laws::each_text_has_first_rows();
}
