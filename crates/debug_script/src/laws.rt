//! Laws of scripts, each the contract of a function that does nothing.
ghost use Rattle.debug_script.specs.Scripts.{EachTextIsJudged};

/// Each text spells a script or has a first fault.
pub fn each_text_is_judged()
    ensures { EachTextIsJudged }
{}
