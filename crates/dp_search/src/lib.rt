//! Best-first search for a bound tree, over any space of fronts, and the planner over the fronts of a model.
#![tactic(auto)]

mod action_worth;
mod bounding;
mod children;
mod chooser;
mod completion;
mod constants;
mod expansion;
mod front_places;
mod front_planner;
mod greatest_leaf;
mod held_front;
mod held_leaf;
mod held_leaves;
#[cfg(test)]
mod large_game;
mod last_choice;
mod look;
mod made_fronts;
mod making;
mod options;
mod path;
mod place;
mod planner;
mod planning;
mod policies;
mod room;
mod search;
mod state;
#[cfg(test)]
mod tests;

pub use chooser::Chooser;
pub use front_places::places;
pub use front_planner::widest;
pub use greatest_leaf::greatest_bound;
pub use options::PlanOpts;
pub use place::Place;
pub use planner::{Child, Expanded, Planner};
pub use planning::plan;
pub use search::{Searched, search_best_first};
