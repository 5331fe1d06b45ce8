//! The limits on the joint classes of a front, and wide fronts.
ghost use Rattle.std.specs.Prelude.{◌≡◌, ◌^◌, ◌<◌, ◌≤◌, ◌==◌, get_or, length};
ghost use Rattle.dp_spec.specs.Steps.{root_agent};
ghost use Rattle.dp_spec.specs.Wide.{is_room, is_wide, none_count, unassigned_count, widens};
ghost use Rattle.dp_cluster.specs.KeptFronts.{IsFrontOf};

use crate::Front;
use dp_model::Model;

// The most branches and merges above another.
const DEEPEST: u32 = 2048;

// The greatest number of states times joint classes, and of joint actions times joint classes.
const MOST_STATES: u64 = 1 << 22;

const MOST_ACTIONS: u64 = 1 << 24;

impl Front {
    /// Whether a step is left after the next one and the front after an advance would have no room: more
    /// than `2^22` states times joint classes, or more than `2^24` joint actions times joint classes. It
    /// takes no memory.
    pub fn widens(&self, m: &Model) -> bool
        requires of_model { IsFrontOf m.now.model self.now }
        requires stage { self.now.front.stage < self.now.horizon }
        ensures { result ≡ widens m.now.model self.now.horizon self.now.front }
    {
        m.invariant();
        let next = self.joint_classes() as u64 * u64::from(m.joint_observations());
        self.stage() + 1 < self.horizon() && !is_room(m, next)
    }

    /// Whether a node with this front, below so many branches and merges, is wide: a step is left, and
    /// 2,048 stand above it, or its last choice would lead to a front without room. It takes no memory.
    pub fn is_wide(&self, m: &Model, above: u32) -> bool
        requires { IsFrontOf m.now.model self.now }
        ensures { result ≡ is_wide m.now.model self.now.horizon above self.now.front }
    {
        if self.stage() >= self.horizon() {
            return false;
        }
        if above >= DEEPEST {
            return true;
        }
        if !self.has_last_choice() {
            return false;
        }
        self.widens(m)
    }

    // Whether exactly one class has no action.
    fn has_last_choice(&self) -> bool
        ensures { result ≡ (unassigned_count self.now.front.agents == 1) }
    {
        self.invariant();
        let mut count: u64 = 0;
        for agent in 0..self.agents() {
            count += u64::from(self.unassigned(agent));
        }
        count == 1
    }

    // How many classes of an agent have no action.
    fn unassigned(&self, agent: u32) -> u32
        requires { agent < length self.now.front.agents }
        ensures { result ≡ none_count (get_or self.now.front.agents agent root_agent).chosen }
    {
        let mut count = 0;
        for class in 0..self.classes(agent) {
            if self.action(agent, class).is_none() {
                count += 1;
            }
        }
        count
    }
}

// Whether so many joint classes are within the limits.
fn is_room(m: &Model, classes: u64) -> bool
    requires { classes ≤ 2 ^ 40 }
    ensures { result ≡ is_room m.now.model classes }
{
    m.invariant();
    u64::from(m.states()) * classes <= MOST_STATES
        && u64::from(m.joint_actions()) * classes <= MOST_ACTIONS
}
