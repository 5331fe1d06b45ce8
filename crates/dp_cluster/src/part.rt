// One agent's part of a front.
ghost use Rattle.std.specs.Prelude.{◌≡◌, ◌<◌, ◌≤◌, ◌+◌, ◌-◌, ◌*◌, ◌^◌, [], ◌∷◌, ◌++◌, ℕ, List, drop, map, length};
ghost use Rattle.std.specs.Prelude.{get_or, set, true, false, None, Some, IfOk};
ghost use Rattle.std.specs.List.{range_with_len};
ghost use Rattle.dp_spec.specs.Front.{AgentFront};
ghost use Rattle.dp_spec.specs.Steps.{all_chosen, advanced_agent};
ghost use Rattle.dp_spec.specs.Merge.{merged_agent, renumbered, kept_class};
ghost use Rattle.dp_spec.specs.FullPolicy.{tree_doing, tree_doing_after};
ghost use Rattle.dp_spec.specs.SharedPolicy.{AgentRows, AreAgentRows, next_count, unfolded_tree};
ghost use Rattle.dp_policy.specs.TreeValue.{policy_tree};
ghost use Rattle.dp_cluster.specs.AgentParts.{AreMergedStages, ArePastStages, HasMembers, HaveNoLinks, IsReached};
ghost use Rattle.dp_cluster.specs.AgentParts.{action_after, class_after};
ghost use Rattle.dp_cluster.specs.AgentParts.{class_led_to, root_part};
ghost use Rattle.dp_cluster.specs.FullRows.{rows_before, stage_rows};
ghost use Rattle.dp_cluster.specs.Keys.{HasOwnNumbers, HasSharedClass};
ghost use Rattle.dp_cluster.specs.PastClasses.{HasRowEachClass, classes_of, no_classes};

use crate::shared::shared;
use dp_base::Memory;
use dp_model::Sequence;
use dp_policy::{PTree, Row};
use std::alloc::Global;
use std::rc::Rc;

// A stage that lies behind a front: the action of each class of the agent, and the class that each
// class leads to with each observation.
#[derive(Drop)]
pub(crate) struct PastStage {
    actions: Vec<u32>,
    // Class `c` followed by observation `o` leads to class `links[c * observations + o]`. No links:
    // it leads to class `c * observations + o`.
    links: Vec<u32>,
}

// An agent's part of a front: the stages behind it, the latest first, and how many classes it has, each
// with its action or none. No histories are kept: a class holds those that the links lead to it.
#[derive(Drop)]
pub(crate) struct AgentPart {
    observations: u32,
    past: Vec<Rc<PastStage>>,
    classes: u32,
    // The action of each class. Classes past its end have none.
    chosen: Vec<Option<u32>>,
}

impl std::marker::Model for AgentPart {
    ghost use Rattle.std.specs.Prelude.{map};
    ghost use Rattle.dp_cluster.specs.AgentParts.{OwnPart, part_of, past_classes, ArePastStages};

    ghost Value = { OwnPart };

    ghost view = { λ p. record {
      observations = p.observations;
      front = part_of p.observations (map (λ s. s.value) p.past.items) p.classes p.chosen.items;
      past = past_classes p.observations (map (λ s. s.value) p.past.items);
    } };

    ghost invariant = { λ p. ArePastStages p.observations (map (λ s. s.value) p.past.items) };
}

impl AgentPart {
    // The part of the root front: one class, which holds the empty history.
    pub(crate) fn root(alloc: Global, observations: u32) -> AgentPart
        ensures { result ≡ root_part observations }
    {
        AgentPart {
            observations,
            past: Vec::new(alloc),
            classes: 1,
            chosen: Vec::new(alloc),
        }
    }

    #[inline]
    pub(crate) fn observations(&self) -> u32
        ensures { result ≡ self.now.observations }
    {
        self.observations
    }

    // How many classes there are.
    #[inline]
    pub(crate) fn classes(&self) -> u32
        ensures { result ≡ length self.now.front.chosen }
    {
        self.classes
    }

    // The action of a class, or none.
    #[inline]
    pub(crate) fn action(&self, class: u32) -> Option<u32>
        requires { class < length self.now.front.chosen }
        ensures { result ≡ get_or self.now.front.chosen class None }
    {
        action_at(&self.chosen, class)
    }

    // Whether every class has an action.
    pub(crate) fn complete(&self) -> bool
        ensures { result ≡ all_chosen self.now.front.chosen }
    {
        for class in 0..self.classes {
            if action_at(&self.chosen, class).is_none() {
                return false;
            }
        }
        true
    }

    // The part after an action is chosen for a class.
    pub(crate) fn with_choice(
        &self,
        alloc: Global,
        class: u32,
        action: u32,
    ) -> Result<AgentPart, Memory>
        requires { class < length self.now.front.chosen }
        ensures { IfOk result (λ p. p ≡ record self.now {
          front = record self.now.front { chosen = set self.now.front.chosen class (Some action) };
        }) }
    {
        let mut chosen = Vec::new(alloc);
        for c in 0..self.classes {
            let kept = action_at(&self.chosen, c);
            chosen.push(if c == class { Some(action) } else { kept })?;
        }
        Ok(AgentPart {
            observations: self.observations,
            past: shared(alloc, &self.past)?,
            classes: self.classes,
            chosen,
        })
    }

    // The part at the next stage: the actions are fixed, and each class goes on with each observation.
    pub(crate) fn advanced(&self, alloc: Global) -> Result<AgentPart, Memory>
        requires classes { (x : ℕ) → x < self.now.observations ^ length self.now.front.fixed →
            get_or self.now.front.class_of x 0 < length self.now.front.chosen }
        requires members { HasMembers self.now }
        requires room { length self.now.front.chosen * self.now.observations < 2 ^ 32 }
        ensures { IfOk result (λ p. p ≡ record self.now {
          front = advanced_agent self.now.observations (length self.now.front.fixed) self.now.front;
          past = self.now.past ++ classes_of self.now.front ∷ [];
        }) }
    {
        let mut actions = Vec::new(alloc);
        for c in 0..self.classes {
            actions.push(action_at(&self.chosen, c).unwrap_or(0))?;
        }
        let stage = PastStage {
            actions,
            links: Vec::new(alloc),
        };
        Ok(AgentPart {
            observations: self.observations,
            past: with_stage(alloc, stage, &self.past)?,
            classes: self.classes * self.observations,
            chosen: Vec::new(alloc),
        })
    }

    // The tree that does what is fixed, where some stage is.
    pub(crate) fn tree(&self, alloc: Global) -> Result<PTree, Memory>
        requires { 0 < length self.now.front.fixed }
        ensures { IfOk result (λ q. policy_tree q ≡ tree_doing self.now.observations
            (λ t x. get_or (get_or self.now.front.fixed t []) x 0) (length self.now.front.fixed)) }
    {
        let past: &[Rc<PastStage>] = &self.past;
        tree_after(alloc, self.observations, past, past.len(), 0)
    }

    // The rows of the stages that are fixed, one for each class, in their order.
    pub(crate) fn rows(&self, alloc: Global) -> Result<Vec<Vec<Row>>, Memory>
        requires observations { 0 < self.now.observations }
        requires some { 0 < length self.now.front.fixed }
        ensures rows { IfOk result (λ v. (b : ℕ) → ((t x : ℕ) → t < length self.now.front.fixed →
            x < self.now.observations ^ t → get_or (get_or self.now.front.fixed t []) x 0 < b) →
            AreAgentRows b self.now.observations (length self.now.front.fixed) (map (λ r. r.items) v.items)) }
        ensures tree { IfOk result (λ v. unfolded_tree (map (λ r. r.items) v.items) 0 ≡
            tree_doing self.now.observations (λ t x. get_or (get_or self.now.front.fixed t []) x 0)
            (length self.now.front.fixed)) }
        ensures classes { IfOk result (λ v. (t : ℕ) → t < length self.now.front.fixed →
            HasRowEachClass self.now.observations (map (λ r. r.items) v.items) t
            (get_or self.now.past t no_classes)) }
    {
        let past: &[Rc<PastStage>] = &self.past;
        rows_of(alloc, self.observations, past)
    }

    // The action that is fixed at a stage for a class that the agent had there.
    pub(crate) fn fixed(&self, stage: u32, class: u32) -> u32
        requires stage { stage < length self.now.front.fixed }
        requires class { (x : ℕ) × (x < self.now.observations ^ stage) ×
            (get_or (get_or self.now.past stage no_classes).class_of x 0 ≡ class) }
        ensures { (x : ℕ) → x < self.now.observations ^ stage →
            get_or (get_or self.now.past stage no_classes).class_of x 0 ≡ class →
            result ≡ get_or (get_or self.now.front.fixed stage []) x 0 }
    {
        let past: &[Rc<PastStage>] = &self.past;
        let kept = past[past.len() - 1 - stage as usize].as_ref();
        kept.actions[class as usize]
    }

    // Whether each own history has its own number for its class: no classes were joined.
    pub(crate) fn has_own_numbers(&self) -> bool
        requires { 0 < self.now.observations }
        ensures yes { result ≡ true → HasOwnNumbers self.now }
        ensures no { result ≡ false → HasSharedClass self.now }
    {
        let past: &[Rc<PastStage>] = &self.past;
        have_no_links(past)
    }

    // The part after class `second` was joined into class `first`.
    pub(crate) fn merged(&self, alloc: Global, first: u32, second: u32) -> Result<AgentPart, Memory>
        requires order { first < second }
        requires second { second < length self.now.front.chosen }
        requires members { HasMembers self.now }
        ensures { IfOk result (λ p. p ≡ record self.now { front = merged_agent first second self.now.front }) }
    {
        let mut chosen = Vec::new(alloc);
        for c in 0..self.classes - 1 {
            chosen.push(action_at(&self.chosen, kept_class(second, c)))?;
        }
        let past = merged_stages(alloc, self.observations, &self.past, first, second)?;
        Ok(AgentPart {
            observations: self.observations,
            past,
            classes: self.classes - 1,
            chosen,
        })
    }
}

// The action at a place of a list, and none past its end.
#[inline]
fn action_at(chosen: &[Option<u32>], class: u32) -> Option<u32>
    ensures { result ≡ get_or chosen.now class None }
{
    let at = class as usize;
    if at < chosen.len() { chosen[at] } else { None }
}

impl PastStage {
    // The class that is led to from place `class * observations + observation`.
    #[inline]
    fn link(&self, place: u32) -> u32
        ensures { result ≡ class_led_to self.now place }
    {
        let at = place as usize;
        if at < self.links.len() {
            self.links[at]
        } else {
            place
        }
    }

    // The rows of its classes, which go on after so many observations.
    fn rows(&self, alloc: Global, observations: u32, nexts: u32) -> Result<Vec<Row>, Memory>
        requires some { 0 < observations }
        requires room { length self.now.actions.items * observations < 2 ^ 32 }
        requires nexts { nexts ≤ observations }
        ensures { IfOk result (λ v. v.items ≡ stage_rows observations nexts self.now) }
    {
        let actions: &[u32] = &self.actions;
        let mut rows = Vec::new(alloc);
        for class in 0..actions.len() {
            let next = self.nexts(alloc, observations, nexts, class as u32)?;
            rows.push(Row {
                action: actions[class],
                next: Sequence::of(next),
            })?;
        }
        Ok(rows)
    }

    // The classes that a class leads to with each of so many observations.
    fn nexts(
        &self,
        alloc: Global,
        observations: u32,
        nexts: u32,
        class: u32,
    ) -> Result<Vec<u32>, Memory>
        requires { class * observations + nexts < 2 ^ 32 }
        ensures { IfOk result (λ v. v.items ≡
            map (λ o. class_led_to self.now (class * observations + o)) (range_with_len 0 nexts)) }
    {
        let mut next = Vec::new(alloc);
        for seen in 0..nexts {
            next.push(self.link(class * observations + seen))?;
        }
        Ok(next)
    }

    // The stage where class `second` of the next stage was joined into class `first`.
    fn merged(
        &self,
        alloc: Global,
        observations: u32,
        first: u32,
        second: u32,
    ) -> Result<PastStage, Memory>
        requires room { length self.now.actions.items * observations < 2 ^ 32 }
        requires order { first < second }
        ensures actions { IfOk result (λ s. s.actions.items ≡ self.now.actions.items) }
        ensures links { IfOk result (λ s. (p : ℕ) → p < length self.now.actions.items * observations →
            class_led_to s p ≡ renumbered first second (class_led_to self.now p)) }
    {
        let kept: &[u32] = &self.actions;
        let mut links = Vec::new(alloc);
        for place in 0..kept.len() * observations as usize {
            links.push(renumbered(first, second, self.link(place as u32)))?;
        }
        Ok(PastStage {
            actions: Vec::from_slice(alloc, kept)?,
            links,
        })
    }
}

// What class `c` is called after class `second` was joined into class `first`.
#[inline]
fn renumbered(first: u32, second: u32, c: u32) -> u32
    ensures { result ≡ renumbered first second c }
{
    if c == second {
        first
    } else if second < c {
        c - 1
    } else {
        c
    }
}

// The class that has become class `c`, where class `second` was joined into another.
#[inline]
pub(crate) fn kept_class(second: u32, c: u32) -> u32
    requires { c < 2 ^ 32 - 1 }
    ensures { result ≡ kept_class second c }
{
    if c < second { c } else { c + 1 }
}

// The stages, the latest first, where class `second` of the next stage was joined into class `first`.
fn merged_stages(
    alloc: Global,
    observations: u32,
    stages: &[Rc<PastStage>],
    first: u32,
    second: u32,
) -> Result<Vec<Rc<PastStage>>, Memory>
    requires stages { ArePastStages observations (map (λ s. s.value) stages.now) }
    requires order { first < second }
    ensures { IfOk result (λ v. AreMergedStages observations first second
        (map (λ s. s.value) stages.now) (map (λ s. s.value) v.items)) }
{
    if stages.is_empty() {
        return Ok(Vec::new(alloc));
    }
    let latest = stages[0].merged(alloc, observations, first, second)?;
    with_stage(alloc, latest, &stages[1..])
}

// A stage before others, which are shared.
fn with_stage(
    alloc: Global,
    stage: PastStage,
    older: &[Rc<PastStage>],
) -> Result<Vec<Rc<PastStage>>, Memory>
    ensures { IfOk result (λ v. map (λ s. s.value) v.items ≡ stage ∷ map (λ s. s.value) older.now) }
{
    let mut all = Vec::new(alloc);
    all.push(Rc::new(alloc, stage)?)?;
    for stage in older {
        all.push(stage.clone()?)?;
    }
    Ok(all)
}

// The tree of what is done from a stage on, after class `class`: the stage is the last of the first
// `left` stages, of which the later ones stand first.
fn tree_after(
    alloc: Global,
    observations: u32,
    past: &[Rc<PastStage>],
    left: usize,
    class: u32,
) -> Result<PTree, Memory>
    requires some { 0 < left }
    requires stages { ArePastStages observations (map (λ s. s.value) past.now) }
    requires reached { IsReached observations (map (λ s. s.value) past.now) left class }
    ensures { IfOk result (λ q. (t x : ℕ) → t + left ≡ length past.now → x < observations ^ t →
        class_after observations (drop left (map (λ s. s.value) past.now)) x ≡ class →
        policy_tree q ≡ tree_doing_after observations
        (action_after observations (map (λ s. s.value) past.now)) left t x) }
{
    let stage = past[left - 1].as_ref();
    let mut kids = Vec::new(alloc);
    if left > 1 {
        for seen in 0..observations {
            let next = stage.link(class * observations + seen);
            kids.push(tree_after(alloc, observations, past, left - 1, next)?)?;
        }
    }
    Ok(PTree {
        action: stage.actions[class as usize],
        kids,
    })
}

// The rows of stages, of which the later ones stand first.
fn rows_of(
    alloc: Global,
    observations: u32,
    past: &[Rc<PastStage>],
) -> Result<Vec<Vec<Row>>, Memory>
    requires some { 0 < observations }
    requires stages { ArePastStages observations (map (λ s. s.value) past.now) }
    ensures { IfOk result (λ v. map (λ r. r.items) v.items ≡
        rows_before observations (map (λ s. s.value) past.now) []) }
{
    let mut rows = Vec::new(alloc);
    for stage in 0..past.len() {
        let after = past.len() - 1 - stage;
        let nexts = next_count(after, observations);
        rows.push(past[after].as_ref().rows(alloc, observations, nexts)?)?;
    }
    Ok(rows)
}

// After how many observations a row goes on where so many stages follow its own.
fn next_count(after: usize, observations: u32) -> u32
    ensures count { (stages : AgentRows) → length stages ≡ after → result ≡ next_count observations stages }
    ensures limit { result ≤ observations }
{
    if after == 0 { 0 } else { observations }
}

// Whether no stage has links.
fn have_no_links(past: &[Rc<PastStage>]) -> bool
    ensures yes { result ≡ true → HaveNoLinks (map (λ s. s.value) past.now) }
    ensures no { result ≡ false → ¬ HaveNoLinks (map (λ s. s.value) past.now) }
{
    for stage in past {
        if !stage.as_ref().links.is_empty() {
            return false;
        }
    }
    true
}
