ghost use Rattle.dp_laws.specs.TreeLaws.{ActionsAreOfTheAgent, TreeOfAnyActionsExists};
ghost use Rattle.dp_laws.specs.TreeLaws.{TreesWithEqualActionsAreEqual};

/// A tree of r steps does an action of its agent after each own history shorter than r.
#[tactic(auto, using(crate::proofs::TreeActions::action_below))]
pub fn actions_are_of_the_agent()
    ensures { ActionsAreOfTheAgent }
{}

/// Two trees of r steps that do the same after each own history shorter than r are equal.
#[tactic(auto, using(crate::proofs::TreeActions::equal_by_actions))]
pub fn trees_with_equal_actions_are_equal()
    ensures { TreesWithEqualActionsAreEqual }
{}

/// For any actions of an agent after its own histories there is a policy tree that does them.
pub fn tree_of_any_actions_exists()
    ensures { TreeOfAnyActionsExists }
{}
