// The actions that are chosen for the classes of an agent.
ghost use Rattle.std.specs.Prelude.{◌≡◌, ◌<◌, ℕ, map, length, get_or, set, IfOk};
ghost use Rattle.dp_spec.specs.Front.{AgentFront};
ghost use Rattle.dp_spec.specs.Steps.{root_agent};
ghost use Rattle.dp_cluster.specs.KeptFronts.{choice_at};

use dp_base::Memory;
use dp_cluster::Front;
use std::alloc::Global;

// For each class of an agent its action or none. Contracts see the list.
#[derive(Drop)]
pub(crate) struct AgentChoices {
    classes: Vec<Option<u8>>,
}

impl std::marker::Model for AgentChoices {
    ghost use Rattle.std.specs.Prelude.{List, ℕ, Option};

    ghost Value = { List (Option ℕ) };

    ghost view = { λ a. a.classes.items };
}

impl AgentChoices {
    // Those of an agent of a front.
    pub(crate) fn of(alloc: Global, front: &Front, agent: u32) -> Result<AgentChoices, Memory>
        requires agent { agent < length front.now.front.agents }
        requires small { (c a : ℕ) → choice_at front.now.front.agents agent c ≡ Some a → a < 256 }
        ensures { IfOk result (λ own. own ≡ (get_or front.now.front.agents agent root_agent).chosen) }
    {
        let mut classes = Vec::new(alloc);
        for class in 0..front.classes(agent) {
            classes.push(as_byte(front.action(agent, class)))?;
        }
        Ok(AgentChoices { classes })
    }

    // The same choices, to be changed apart from these.
    fn copy(&self, alloc: Global) -> Result<AgentChoices, Memory>
        ensures { IfOk result (λ own. own ≡ self.now) }
    {
        Ok(AgentChoices {
            classes: Vec::from_slice(alloc, &self.classes)?,
        })
    }

    // How many classes there are.
    #[inline]
    pub(crate) fn count(&self) -> usize
        ensures { result ≡ length self.now }
    {
        self.classes.len()
    }

    // The choice for a class.
    #[inline]
    pub(crate) fn at(&self, class: usize) -> Option<u8>
        requires { class < length self.now }
        ensures { result ≡ get_or self.now class None }
    {
        self.classes[class]
    }

    // Makes a choice for a class.
    #[inline]
    pub(crate) fn put(&mut self, class: usize, choice: Option<u8>)
        requires { class < length self.old }
        ensures { self.new ≡ set self.old class choice }
    {
        self.classes[class] = choice;
    }
}

// An action below 256 in a byte.
#[inline]
fn as_byte(choice: Option<u32>) -> Option<u8>
    requires { (a : ℕ) → choice ≡ Some a → a < 256 }
    ensures { result ≡ choice }
{
    match choice {
        None => None,
        Some(action) => Some(action as u8),
    }
}

// The choices of each agent of a front.
pub(crate) fn choices_of(
    alloc: Global,
    front: &Front,
    agents: u32,
) -> Result<Vec<AgentChoices>, Memory>
    requires agents { agents ≡ length front.now.front.agents }
    requires small { (i c a : ℕ) → choice_at front.now.front.agents i c ≡ Some a → a < 256 }
    ensures { IfOk result (λ v. v.items ≡ map (λ (d : AgentFront). d.chosen) front.now.front.agents) }
{
    let mut choices = Vec::new(alloc);
    for agent in 0..agents {
        choices.push(AgentChoices::of(alloc, front, agent)?)?;
    }
    Ok(choices)
}

// The choices of each agent, to be changed apart from these.
pub(crate) fn copied_choices(
    alloc: Global,
    choices: &[AgentChoices],
) -> Result<Vec<AgentChoices>, Memory>
    ensures { IfOk result (λ v. v.items ≡ choices.now) }
{
    let mut copied = Vec::new(alloc);
    for own in choices {
        copied.push(own.copy(alloc)?)?;
    }
    Ok(copied)
}
