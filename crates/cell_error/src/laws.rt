//! For which masses there is an error.
ghost use Rattle.cell_error.specs.{Errors.CoveredMassesHaveErrors, Means.MeansHaveErrors};

/// If an error holds for all masses there is a least one, which is no greater.
pub fn covered_masses_have_errors()
    ensures { CoveredMassesHaveErrors }
{}

/// If some mass is certain, means have an error.
pub fn means_have_errors()
    ensures { MeansHaveErrors }
{}
