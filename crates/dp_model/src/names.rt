//! The names of a model.
ghost use Rattle.std.specs.Prelude.{◌≡◌, ◌<◌, ◌^◌, ◌↔◌, [], IsTrue, IsNone, not, length, slice_get, IfOk};
ghost use Rattle.std.specs.Prelude.{OnOk, OnErr, replicate};
ghost use Rattle.std.specs.Option.{option_copied};
ghost use Rattle.dp_base.specs.Names.{is_name};
ghost use Rattle.dp_model.specs.Names.{AreNames, counts_of, has_name, names_of, place_of, with_name};
ghost use Rattle.dp_model.specs.Names.{with_name_of};

use crate::name_list::NameList;
use dp_base::Memory;
use std::alloc::Global;

/// The names of the agents and of the states, and for each agent those of its actions and of its
/// observations, each list in the order of its numbers.
///
/// A list without names was given as a count: its things are known by their numbers. Contracts see
/// the lists as they are. Their items are names, no list has one twice, and none has more
/// than 2^26.
#[derive(Drop)]
pub struct Names {
    agents: NameList,
    states: NameList,
    actions: Vec<NameList>,
    observations: Vec<NameList>,
}

impl std::marker::Model for Names {
    ghost use Rattle.dp_model.specs.Names.{NameLists, AreNames};

    ghost Value = { NameLists };

    ghost view = { λ n. record {
      agents = n.agents;
      states = n.states;
      actions = n.actions.items;
      observations = n.observations.items;
    } };

    ghost invariant = { λ n. AreNames (record {
      agents = n.agents;
      states = n.states;
      actions = n.actions.items;
      observations = n.observations.items;
    }) };
}

impl Names {
    /// The names of so many agents, with every list given as a count.
    pub fn counts(alloc: Global, agents: u32) -> Result<Names, Memory>
        ensures { IfOk result (λ names. names ≡ counts_of agents) }
    {
        Ok(Names {
            agents: NameList::new(alloc),
            states: NameList::new(alloc),
            actions: empty_lists(alloc, agents)?,
            observations: empty_lists(alloc, agents)?,
        })
    }

    /// The names of these lists, where a list without names stands for one that is given as a
    /// count. It takes no memory.
    pub fn of_lists(
        agents: NameList,
        states: NameList,
        actions: Vec<NameList>,
        observations: Vec<NameList>,
    ) -> Names
        requires { AreNames (record {
          agents = agents;
          states = states;
          actions = actions.items;
          observations = observations.items;
        }) }
        ensures { result ≡ record {
          agents = agents;
          states = states;
          actions = actions.items;
          observations = observations.items;
        } }
    {
        Names {
            agents,
            states,
            actions,
            observations,
        }
    }

    /// What holds of all names. It does nothing.
    #[inline]
    pub fn invariant(&self)
        ensures { AreNames self.now }
    {
        let _ = &self.agents;
    }

    /// Appends the name of an agent, and answers whether it is new: a name that the list has stays
    /// as it is. After want of memory nothing is changed.
    pub fn add_agent(&mut self, alloc: Global, name: &str) -> Result<bool, Memory>
        requires name { IsTrue (is_name name.now) }
        requires room { length self.old.agents < 2 ^ 26 }
        ensures is_new { IfOk result (λ is_new. is_new ≡ not (has_name self.old.agents name.now)) }
        ensures added { OnOk result (self.new ≡ record self.old { agents = with_name self.old.agents name.now }) }
        ensures err { OnErr result (self.new ≡ self.old) }
    {
        self.agents.add(alloc, name)
    }

    /// Appends the name of a state, as `add_agent` does.
    pub fn add_state(&mut self, alloc: Global, name: &str) -> Result<bool, Memory>
        requires name { IsTrue (is_name name.now) }
        requires room { length self.old.states < 2 ^ 26 }
        ensures is_new { IfOk result (λ is_new. is_new ≡ not (has_name self.old.states name.now)) }
        ensures added { OnOk result (self.new ≡ record self.old { states = with_name self.old.states name.now }) }
        ensures err { OnErr result (self.new ≡ self.old) }
    {
        self.states.add(alloc, name)
    }

    /// Appends the name of an action of agent `i`, as `add_agent` does.
    pub fn add_action(&mut self, alloc: Global, i: u32, name: &str) -> Result<bool, Memory>
        requires agent { i < length self.old.actions }
        requires name { IsTrue (is_name name.now) }
        requires room { length (names_of self.old.actions i) < 2 ^ 26 }
        ensures is_new { IfOk result
            (λ is_new. is_new ≡ not (has_name (names_of self.old.actions i) name.now)) }
        ensures added { OnOk result
            (self.new ≡ record self.old { actions = with_name_of self.old.actions i name.now }) }
        ensures err { OnErr result (self.new ≡ self.old) }
    {
        let list = &mut self.actions[i as usize];
        list.add(alloc, name)
    }

    /// Appends the name of an observation of agent `i`, as `add_agent` does.
    pub fn add_observation(&mut self, alloc: Global, i: u32, name: &str) -> Result<bool, Memory>
        requires agent { i < length self.old.observations }
        requires name { IsTrue (is_name name.now) }
        requires room { length (names_of self.old.observations i) < 2 ^ 26 }
        ensures is_new { IfOk result
            (λ is_new. is_new ≡ not (has_name (names_of self.old.observations i) name.now)) }
        ensures added { OnOk result
            (self.new ≡ record self.old { observations = with_name_of self.old.observations i name.now }) }
        ensures err { OnErr result (self.new ≡ self.old) }
    {
        let list = &mut self.observations[i as usize];
        list.add(alloc, name)
    }

    /// The name of agent `i`, or none where the agents were given as a count.
    pub fn agent(&self, i: u32) -> Option<&str>
        requires { 0 < length self.now.agents → i < length self.now.agents }
        ensures name { option_copied result ≡ slice_get self.now.agents i }
        ensures none { IsNone result ↔ (self.now.agents ≡ []) }
    {
        self.agents.get(i)
    }

    /// The name of state `s`, or none where the states were given as a count.
    pub fn state(&self, s: u32) -> Option<&str>
        requires { 0 < length self.now.states → s < length self.now.states }
        ensures name { option_copied result ≡ slice_get self.now.states s }
        ensures none { IsNone result ↔ (self.now.states ≡ []) }
    {
        self.states.get(s)
    }

    /// The name of action `a` of agent `i`, or none where its actions were given as a count.
    pub fn action(&self, i: u32, a: u32) -> Option<&str>
        requires agent { i < length self.now.actions }
        requires action { 0 < length (names_of self.now.actions i) →
            a < length (names_of self.now.actions i) }
        ensures name { option_copied result ≡ slice_get (names_of self.now.actions i) a }
        ensures none { IsNone result ↔ (names_of self.now.actions i ≡ []) }
    {
        let list = &self.actions[i as usize];
        list.get(a)
    }

    /// The name of observation `o` of agent `i`, or none where its observations were given as a
    /// count.
    pub fn observation(&self, i: u32, o: u32) -> Option<&str>
        requires agent { i < length self.now.observations }
        requires observation { 0 < length (names_of self.now.observations i) →
            o < length (names_of self.now.observations i) }
        ensures name { option_copied result ≡ slice_get (names_of self.now.observations i) o }
        ensures none { IsNone result ↔ (names_of self.now.observations i ≡ []) }
    {
        let list = &self.observations[i as usize];
        list.get(o)
    }

    /// The number of the state of this name, or none where no state has it.
    pub fn find_state(&self, name: &str) -> Option<u32>
        ensures { result ≡ place_of self.now.states name.now }
    {
        self.states.find(name)
    }

    /// The number of the action of this name among those of agent `i`, or none where none has it.
    pub fn find_action(&self, i: u32, name: &str) -> Option<u32>
        requires { i < length self.now.actions }
        ensures { result ≡ place_of (names_of self.now.actions i) name.now }
    {
        let list = &self.actions[i as usize];
        list.find(name)
    }

    /// The number of the observation of this name among those of agent `i`, or none where none
    /// has it.
    pub fn find_observation(&self, i: u32, name: &str) -> Option<u32>
        requires { i < length self.now.observations }
        ensures { result ≡ place_of (names_of self.now.observations i) name.now }
    {
        let list = &self.observations[i as usize];
        list.find(name)
    }
}

// A list without names for each agent.
fn empty_lists(alloc: Global, agents: u32) -> Result<Vec<NameList>, Memory>
    ensures { IfOk result (λ lists. lists.items ≡ replicate agents []) }
{
    let mut lists = Vec::new(alloc);
    for _agent in 0..agents {
        lists.push(NameList::new(alloc))?;
    }
    Ok(lists)
}
