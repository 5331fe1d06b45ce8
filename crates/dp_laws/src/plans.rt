ghost use Rattle.dp_laws.specs.PlanLaws.{PlansOfVersionOneEnd};

/// A plan of version 1 is closed, or has as many branches and merges as were allowed.
pub fn plans_of_version_one_end()
    ensures { PlansOfVersionOneEnd }
{}
