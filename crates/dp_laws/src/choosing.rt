ghost use Rattle.dp_laws.specs.ChoosingLaws.{ChoosingChangesNoWeight, EquivalenceIgnoresChoices};

/// Choosing an action for a class changes no weight and nothing that is earned.
#[tactic(auto, using(crate::proofs::ChosenFronts::chosen_weighs_alike))]
pub fn choosing_changes_no_weight()
    ensures { ChoosingChangesNoWeight }
{}

/// Whether two classes are equivalent does not depend on the actions that are chosen.
#[tactic(auto, using(crate::proofs::ChosenFronts::chosen_equivalence))]
pub fn equivalence_ignores_choices()
    ensures { EquivalenceIgnoresChoices }
{}
