//! The game of a front.
ghost use Rattle.std.specs.Prelude.{◌≡◌, ◌<◌, ◌-◌, ℕ, true, [], Some, None, length, get_or, slice_index, IfOk};
ghost use Rattle.std.specs.Prelude.{IfSome};
ghost use Rattle.dp_spec.specs.Arithmetic.{arithmetic};
ghost use Rattle.dp_spec.specs.Fitting.{front_bound};
ghost use Rattle.dp_spec.specs.Front.{Front as PlainFront};
ghost use Rattle.dp_spec.specs.Mode.{is_exact_mode};
ghost use Rattle.dp_spec.specs.Model.{Model as PlainModel};
ghost use Rattle.dp_spec.specs.Steps.{chosen_front, unchosen_front};
ghost use Rattle.dp_spec.specs.Wide.{has_room};
ghost use Rattle.dp_cluster.specs.KeptFronts.{IsFrontOf};
ghost use Rattle.dp_pomdp.specs.Rooms.{IsRoomFor};
ghost use Rattle.dp_game.specs.Bounders.{IsBounderOf};
ghost use Rattle.dp_game.specs.Games.{BoundsKeepers, IsGameOf, game_bound, own_choice, with_own_choice};
ghost use Rattle.dp_game.specs.Kept.{IsOfSomeFront};

use crate::Bounder;
use crate::actions::JointActions;
use crate::change::{bound_of, change_class, moved};
use crate::choices::{AgentChoices, choices_of, copied_choices};
use crate::greatest::greatest_table;
use crate::numbers::class_numbers;
use crate::places::joint_count;
use crate::table::look_ahead_table;
use dp_base::Memory;
use dp_cluster::Front;
use dp_model::Model;
use dp_pomdp::LookRoom;
use std::alloc::Global;
use std::rc::Rc;

/// The game of a front (a collaborative Bayesian game: Oliehoek and Amato, A Concise Introduction to
/// Decentralized POMDPs, chapter 5): its joint classes choose joint actions, and each class is to have
/// one action of its agent.
///
/// Contracts see how many actions each agent has, the actions that are chosen for its classes so far,
/// what each joint class can earn by each joint action, and what is earned before the stage.
/// `IsGameOf` says that these are those of a front.
#[derive(Drop)]
pub struct Game {
    actions: Rc<JointActions>,
    choices: Vec<AgentChoices>,
    // For each extended joint action a row of the greatest entries of the joint classes that agree with it. The
    // choices leave them as they are, so the games of a stage share them.
    best: Rc<Vec<i128>>,
    // Joint class by joint class, the extended joint action of the choices for its classes.
    numbers: Vec<u16>,
    earned: i128,
    bound: i128,
}

impl std::marker::Model for Game {
    ghost use Rattle.dp_game.specs.Games.{KeptGame};
    ghost use Rattle.dp_game.specs.Extended.{IsKeptBy, game_kept};

    ghost Value = { KeptGame };

    ghost view = { λ g. game_kept g.actions.value g.choices.items g.best.value.items g.earned };

    ghost invariant = { λ g. IsKeptBy (game_kept g.actions.value g.choices.items g.best.value.items g.earned)
        g.best.value.items g.numbers.items g.bound };
}

impl Game {
    /// The game of a front before the horizon, with room: with the look of a bounder of the model and the
    /// front's horizon, and with the actions that are chosen in the front. The only error is want of memory.
    pub fn of(
        alloc: Global,
        model: &Model,
        front: &Front,
        bounder: &Bounder,
    ) -> Result<Game, Memory>
        requires of_model { IsFrontOf model.now.model front.now }
        requires bounder { IsBounderOf model.now.model bounder.now }
        requires horizon { front.now.horizon ≡ bounder.now.horizon }
        requires stage { front.now.front.stage < front.now.horizon }
        requires room { has_room model.now.model front.now.horizon front.now.front ≡ true }
        ensures is { IfOk result (IsGameOf model.now.model front.now.horizon bounder.now.look front.now.front) }
        ensures sound { IfOk result (λ g. BoundsKeepers model.now.model front.now.horizon front.now.front
            (game_bound g)) }
    {
        let mut room = bounder.room(alloc, model)?;
        Game::with_room(alloc, model, front, bounder, &mut room)
    }

    /// The same with room to look ahead of the bounder's. What the room keeps of earlier games is not
    /// looked ahead again.
    pub fn with_room(
        alloc: Global,
        model: &Model,
        front: &Front,
        bounder: &Bounder,
        room: &mut LookRoom,
    ) -> Result<Game, Memory>
        requires of_model { IsFrontOf model.now.model front.now }
        requires bounder { IsBounderOf model.now.model bounder.now }
        requires horizon { front.now.horizon ≡ bounder.now.horizon }
        requires stage { front.now.front.stage < front.now.horizon }
        requires room { has_room model.now.model front.now.horizon front.now.front ≡ true }
        requires look_room { IsRoomFor bounder.now.is_exact model.now.model bounder.now.look room.old }
        ensures is { IfOk result (IsGameOf model.now.model front.now.horizon bounder.now.look front.now.front) }
        ensures sound { IfOk result (λ g. BoundsKeepers model.now.model front.now.horizon front.now.front
            (game_bound g)) }
        ensures look_room { IsRoomFor bounder.now.is_exact model.now.model bounder.now.look room.new }
    {
        let actions = JointActions::of(alloc, model)?;
        let choices = choices_of(alloc, front, model.agents())?;
        let count = joint_count(&choices);
        let table = look_ahead_table(alloc, model, front, bounder, count, room)?;
        let best = greatest_table(alloc, &actions, &table, count)?;
        let numbers = class_numbers(alloc, &actions, &choices)?;
        let earned = front.earned().high;
        let bound = bound_of(earned, &best, &numbers);
        Ok(Game {
            actions: Rc::new(alloc, actions)?,
            choices,
            best: Rc::new(alloc, best)?,
            numbers,
            earned,
            bound,
        })
    }

    /// The bound of the game: what is earned before the stage, and for each joint class the greatest of
    /// its entries among the joint actions that agree with the choices. It is the bound of each front of
    /// which this is the game.
    #[inline]
    pub fn bound(&self) -> i128
        ensures is { result ≡ game_bound self.now }
        ensures of_front { (m : PlainModel) (h look : ℕ) (F : PlainFront) → IsGameOf m h look F self.now →
            result ≡ front_bound (arithmetic (is_exact_mode m h) m.scales) m h look F }
    {
        self.bound
    }

    /// The action that is chosen for a class, or none.
    #[inline]
    pub fn choice(&self, agent: u32, class: u32) -> Option<u32>
        requires agent { agent < length self.now.choices }
        requires class { class < length (get_or self.now.choices agent []) }
        ensures is { result ≡ own_choice self.now agent class }
        ensures action { IfSome result (λ a. a < slice_index self.now.actions agent) }
    {
        self.invariant();
        let own = &self.choices[agent as usize];
        match own.at(class as usize) {
            None => None,
            Some(action) => Some(u32::from(action)),
        }
    }

    /// Chooses an action for a class that has none. It takes no memory.
    pub fn choose(&mut self, agent: u32, class: u32, action: u32)
        requires agent { agent < length self.old.choices }
        requires class { class < length (get_or self.old.choices agent []) }
        requires unassigned { own_choice self.old agent class ≡ None }
        requires action { action < slice_index self.old.actions agent }
        ensures is { self.new ≡ with_own_choice self.old agent class (Some action) }
        ensures of_front { (m : PlainModel) (h look : ℕ) (F : PlainFront) → IsGameOf m h look F self.old →
            IsGameOf m h look (chosen_front F agent class action) self.new }
    {
        self.invariant();
        self.put(agent as usize, class as usize, Some(action as u8));
    }

    /// The game after an action is chosen for a class that has none. What the joint classes can earn is shared with
    /// this one.
    /// The only error is want of memory.
    pub fn with_choice(
        &self,
        alloc: Global,
        agent: u32,
        class: u32,
        action: u32,
    ) -> Result<Game, Memory>
        requires agent { agent < length self.now.choices }
        requires class { class < length (get_or self.now.choices agent []) }
        requires unassigned { own_choice self.now agent class ≡ None }
        requires action { action < slice_index self.now.actions agent }
        ensures is { IfOk result (λ g. g ≡ with_own_choice self.now agent class (Some action)) }
        ensures of_front { IfOk result (λ g. (m : PlainModel) (h look : ℕ) (F : PlainFront) →
            IsGameOf m h look F self.now → IsGameOf m h look (chosen_front F agent class action) g) }
    {
        let mut game = self.copy(alloc)?;
        game.choose(agent, class, action);
        Ok(game)
    }

    /// Takes back the action that is chosen for a class. It takes no memory.
    pub fn unchoose(&mut self, agent: u32, class: u32)
        requires agent { agent < length self.old.choices }
        requires class { class < length (get_or self.old.choices agent []) }
        requires chosen { (a : ℕ) × (own_choice self.old agent class ≡ Some a) }
        ensures is { self.new ≡ with_own_choice self.old agent class None }
        ensures of_front { (m : PlainModel) (h look : ℕ) (F : PlainFront) → IsGameOf m h look F self.old →
            IsGameOf m h look (unchosen_front F agent class) self.new }
    {
        self.invariant();
        self.put(agent as usize, class as usize, None);
    }

    // The same game, to be changed apart from this one.
    fn copy(&self, alloc: Global) -> Result<Game, Memory>
        ensures { IfOk result (λ g. g ≡ self.now) }
    {
        let choices = copied_choices(alloc, &self.choices)?;
        Ok(Game {
            actions: self.actions.clone()?,
            choices,
            best: self.best.clone()?,
            numbers: Vec::from_slice(alloc, &self.numbers)?,
            earned: self.earned,
            bound: self.bound,
        })
    }

    // Makes a choice for a class.
    fn put(&mut self, agent: usize, class: usize, choice: Option<u8>)
        requires agent { agent < length self.old.choices }
        requires class { class < length (get_or self.old.choices agent []) }
        requires after { IsOfSomeFront (with_own_choice self.old agent class choice) }
        ensures { self.new ≡ with_own_choice self.old agent class choice }
    {
        let change = change_class(
            self.actions.as_ref(),
            &self.choices,
            self.best.as_ref(),
            agent,
            class,
            choice,
            &mut self.numbers,
        );
        self.bound = moved(self.bound, change.gone, change.come);
        let own = &mut self.choices[agent];
        own.put(class, choice);
    }

    // What holds of every game. It does nothing.
    #[inline]
    fn invariant(&self)
        ensures { IsOfSomeFront self.now }
    {
        let _ = &self.bound;
    }
}
