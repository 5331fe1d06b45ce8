//! The fronts that a search holds.
ghost use Rattle.std.specs.Prelude.{◌≡◌, ℕ, Bool};
ghost use Rattle.dp_spec.specs.Model.{Model as PlainModel};
ghost use Rattle.dp_spec.specs.Wide.{is_wide};
ghost use Rattle.dp_cluster.specs.KeptFronts.{IsFrontOf};
ghost use Rattle.dp_search.specs.Expansions.{mode_bound};
ghost use Rattle.dp_search.specs.FrontPlanning.{IsSearchFront};
ghost use Rattle.dp_search.specs.HeldFronts.{IsHeldFront, front_meant};
ghost use Rattle.dp_search.specs.Paths.{IsPath, path_front};

use crate::path::Path;
use dp_cluster::Front;
use dp_model::Model;
use std::rc::Rc;

// With so many steps above it, a front where a step is left is wide.
const MOST_ABOVE: u32 = 2048;

/// A front that a search holds: the path that leads to it. The front is made when a step is made there, since
/// most never come to that.
#[derive(Drop)]
pub(crate) struct HeldFront {
    pub path: Rc<Path>,
    /// The front itself, where no step is left.
    pub full: Option<Rc<Front>>,
    /// Whether it is wide with no step above it.
    pub wide: bool,
    /// Its own bound, with the look of the search.
    pub bound: i128,
}

impl HeldFront {
    /// The front that a path leads to, which is `front`. It is kept itself where no step is left.
    pub(crate) fn of(model: &Model, path: Rc<Path>, front: Rc<Front>, bound: i128) -> HeldFront
        requires of_model { IsFrontOf model.now.model front.value }
        ensures front { front_meant model.now.model result ≡ path_front model.now.model path.value }
        ensures held { (h look : ℕ) (merging : Bool) → IsPath model.now.model h merging path.value →
            front.value.front ≡ path_front model.now.model path.value → IsSearchFront model.now.model h front.value →
            bound ≡ mode_bound model.now.model h look front.value.front →
            IsHeldFront model.now.model h look merging result }
    {
        let made = front.as_ref();
        let wide = made.is_wide(model, 0);
        let early = made.stage() < made.horizon();
        let full = if early { None } else { Some(front) };
        HeldFront {
            path,
            full,
            wide,
            bound,
        }
    }

    /// Whether it is wide below so many steps.
    pub(crate) fn is_wide(&self, above: u32) -> bool
        ensures { (m : PlainModel) (h look : ℕ) (merging : Bool) → IsHeldFront m h look merging self.now →
            result ≡ is_wide m h above (front_meant m self.now) }
    {
        self.full.is_none() && (above >= MOST_ABOVE || self.wide)
    }
}
