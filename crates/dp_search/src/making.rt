//! The fronts that paths lead to, made where they are not kept.
ghost use Rattle.std.specs.Prelude.{◌≡◌, ◌<◌, ℕ, Bool, true, IfOk, IfSome};
ghost use Rattle.dp_spec.specs.Front.{Front as PlainFront};
ghost use Rattle.dp_spec.specs.Model.{Model as PlainModel};
ghost use Rattle.dp_spec.specs.Steps.{chosen_front, front_after_choice};
ghost use Rattle.dp_game.specs.Bounders.{IsBounderOf};
ghost use Rattle.dp_game.specs.Games.{IsGameOf};
ghost use Rattle.dp_search.specs.FrontPlanners.{IsPlannerFront};
ghost use Rattle.dp_search.specs.MadeFronts.{IsFreeIn, IsMadeFront, IsSearchRoom, IsStart};
ghost use Rattle.dp_search.specs.Paths.{IsChoiceAt, IsPath, path_front};

use crate::bounding::after_choice;
use crate::expansion::{joined, own_game};
use crate::made_fronts::MadeFront;
use crate::path::{Choice, Path};
use crate::room::SearchRoom;
use dp_base::Memory;
use dp_cluster::Front;
use dp_game::{Bounder, Game};
use dp_model::Model;
use std::alloc::Global;
use std::rc::Rc;

/// A front at which a step is made.
#[derive(Drop)]
pub(crate) struct Start {
    pub front: Rc<Front>,
    /// Its game, if that followed from the game of the front before.
    pub game: Option<Game>,
    /// Whether it is known that no two of its classes can be merged.
    pub settled: bool,
}

// A front after a choice, and whether it is of the same stage.
#[derive(Drop)]
struct Next {
    front: Rc<Front>,
    same: bool,
}

/// The front that a path leads to, for a step that is made there: the one that is kept, or else one that is
/// made from the front before it. After a choice of the same stage its game follows from that of the front
/// before.
#[cycle(making)]
pub(crate) fn start_at(
    alloc: Global,
    model: &Model,
    bounder: &Bounder,
    merging: bool,
    path: &Rc<Path>,
    room: &mut SearchRoom,
) -> Result<Start, Memory>
    requires bounder { IsBounderOf model.now.model bounder.now }
    requires path { IsPath model.now.model bounder.now.horizon merging path.now.value }
    requires room { IsSearchRoom bounder.now.is_exact model.now.model bounder.now.horizon bounder.now.look merging
        room.old }
    ensures is { IfOk result (IsStart model.now.model bounder.now.horizon bounder.now.look merging
        (path_front model.now.model path.now.value)) }
    ensures room { IsSearchRoom bounder.now.is_exact model.now.model bounder.now.horizon bounder.now.look merging
        room.new }
{
    match room.made.find(path.as_ref())? {
        None => start_anew(alloc, model, bounder, merging, path.as_ref(), room),
        Some(found) => Ok(Start {
            front: found.front,
            game: None,
            settled: found.settled,
        }),
    }
}

// The same, made from the front before it.
#[cycle(making)]
fn start_anew(
    alloc: Global,
    model: &Model,
    bounder: &Bounder,
    merging: bool,
    path: &Path,
    room: &mut SearchRoom,
) -> Result<Start, Memory>
    requires bounder { IsBounderOf model.now.model bounder.now }
    requires path { IsPath model.now.model bounder.now.horizon merging path.now }
    requires room { IsSearchRoom bounder.now.is_exact model.now.model bounder.now.horizon bounder.now.look merging
        room.old }
    ensures is { IfOk result (IsStart model.now.model bounder.now.horizon bounder.now.look merging
        (path_front model.now.model path.now)) }
    ensures room { IsSearchRoom bounder.now.is_exact model.now.model bounder.now.horizon bounder.now.look merging
        room.new }
{
    match path {
        Path::Root => {
            let front = room.made.root()?;
            Ok(Start {
                front,
                game: None,
                settled: false,
            })
        }
        Path::Chosen { before, choice, .. } => start_after(
            alloc, model, bounder, merging, before, *choice, room,
        ),
        Path::Merged { before, pair, .. } => {
            let start = start_at(alloc, model, bounder, merging, before, room)?;
            let next = joined(alloc, start.front.as_ref(), *pair)?;
            Ok(Start {
                front: Rc::new(alloc, next)?,
                game: None,
                settled: false,
            })
        }
    }
}

// The same for the path that goes on from another one with a choice. The first front of a stage is kept with its
// game, from which those of the stage follow.
#[cycle(making)]
fn start_after(
    alloc: Global,
    model: &Model,
    bounder: &Bounder,
    merging: bool,
    path: &Rc<Path>,
    choice: Choice,
    room: &mut SearchRoom,
) -> Result<Start, Memory>
    requires bounder { IsBounderOf model.now.model bounder.now }
    requires path { IsPath model.now.model bounder.now.horizon merging path.now.value }
    requires choice { IsChoiceAt model.now.model bounder.now.horizon merging
        (path_front model.now.model path.now.value) choice }
    requires room { IsSearchRoom bounder.now.is_exact model.now.model bounder.now.horizon bounder.now.look merging
        room.old }
    ensures is { IfOk result (IsStart model.now.model bounder.now.horizon bounder.now.look merging
        (front_after_choice model.now.model (path_front model.now.model path.now.value) choice.agent choice.class
        choice.action)) }
    ensures room { IsSearchRoom bounder.now.is_exact model.now.model bounder.now.horizon bounder.now.look merging
        room.new }
{
    if let Some(found) = room.made.find(path.as_ref())? {
        return after_made(alloc, model, &found, choice);
    }
    let start = start_anew(alloc, model, bounder, merging, path.as_ref(), room)?;
    if start.settled {
        return after_start(alloc, model, start, choice);
    }
    let made = kept_with_game(alloc, model, bounder, merging, path, start, room)?;
    after_made(alloc, model, &made, choice)
}

// Keeps a front with its game.
fn kept_with_game(
    alloc: Global,
    model: &Model,
    bounder: &Bounder,
    merging: bool,
    path: &Rc<Path>,
    start: Start,
    room: &mut SearchRoom,
) -> Result<MadeFront, Memory>
    requires bounder { IsBounderOf model.now.model bounder.now }
    requires start { IsStart model.now.model bounder.now.horizon bounder.now.look merging
        (path_front model.now.model path.now.value) start }
    requires early { start.front.value.front.stage < bounder.now.horizon }
    requires room { IsSearchRoom bounder.now.is_exact model.now.model bounder.now.horizon bounder.now.look merging
        room.old }
    ensures is { IfOk result (IsMadeFront model.now.model bounder.now.horizon bounder.now.look merging
        (path_front model.now.model path.now.value)) }
    ensures room { IsSearchRoom bounder.now.is_exact model.now.model bounder.now.horizon bounder.now.look merging
        room.new }
{
    let Start { front, game, .. } = start;
    let game = own_game(alloc, model, bounder, front.as_ref(), game, &mut room.look)?;
    let made = MadeFront {
        front,
        game: Some(Rc::new(alloc, game)?),
        settled: false,
    };
    let same = made.shared()?;
    room.made.keep(model, path, same)?;
    Ok(made)
}

// The front after a choice at one that was made.
fn after_made(
    alloc: Global,
    model: &Model,
    made: &MadeFront,
    choice: Choice,
) -> Result<Start, Memory>
    requires of_planner { IsPlannerFront model.now.model made.now.front.value.horizon made.now.front.value }
    requires choice { (merging : Bool) × IsChoiceAt model.now.model made.now.front.value.horizon merging
        made.now.front.value.front choice }
    requires free { IfSome made.now.game (λ g. IsFreeIn g.value choice) }
    ensures { IfOk result (λ s. (h look : ℕ) (merging : Bool) (F : PlainFront) →
        IsMadeFront model.now.model h look merging F made.now → IsChoiceAt model.now.model h merging F choice →
        IsStart model.now.model h look merging
        (front_after_choice model.now.model F choice.agent choice.class choice.action) s) }
{
    let next = front_after(alloc, model, made.front.as_ref(), choice)?;
    let game = if next.same {
        game_after(alloc, made, choice)?
    } else {
        None
    };
    Ok(Start {
        front: next.front,
        game,
        settled: next.same,
    })
}

// The same at a front with a game of its own, in which the choice is made.
fn after_start(alloc: Global, model: &Model, start: Start, choice: Choice) -> Result<Start, Memory>
    requires of_planner { IsPlannerFront model.now.model start.front.value.horizon start.front.value }
    requires choice { (merging : Bool) × IsChoiceAt model.now.model start.front.value.horizon merging
        start.front.value.front choice }
    requires free { IfSome start.game (λ g. IsFreeIn g choice) }
    ensures { IfOk result (λ s. (h look : ℕ) (merging : Bool) (F : PlainFront) →
        IsStart model.now.model h look merging F start → IsChoiceAt model.now.model h merging F choice →
        IsStart model.now.model h look merging
        (front_after_choice model.now.model F choice.agent choice.class choice.action) s) }
{
    let Start { front, game, .. } = start;
    let next = front_after(alloc, model, front.as_ref(), choice)?;
    let game = if next.same {
        chosen_in(game, choice)
    } else {
        None
    };
    Ok(Start {
        front: next.front,
        game,
        settled: next.same,
    })
}

// The front after a choice. At the same stage nothing else changes.
fn front_after(alloc: Global, model: &Model, front: &Front, choice: Choice) -> Result<Next, Memory>
    requires of_planner { IsPlannerFront model.now.model front.now.horizon front.now }
    requires choice { (merging : Bool) × IsChoiceAt model.now.model front.now.horizon merging front.now.front choice }
    ensures of_planner { IfOk result (λ n. IsPlannerFront model.now.model front.now.horizon n.front.value) }
    ensures front { IfOk result (λ n. n.front.value.front ≡
        front_after_choice model.now.model front.now.front choice.agent choice.class choice.action) }
    ensures same { IfOk result (λ n. n.same ≡ true → n.front.value.front ≡
        chosen_front front.now.front choice.agent choice.class choice.action) }
{
    let next = after_choice(
        alloc,
        model,
        front,
        choice.agent,
        choice.class,
        choice.action,
    )?;
    let same = next.stage() == front.stage();
    Ok(Next {
        front: Rc::new(alloc, next)?,
        same,
    })
}

// The game after a choice at a front that was made, where its game is kept.
fn game_after(alloc: Global, made: &MadeFront, choice: Choice) -> Result<Option<Game>, Memory>
    requires { IfSome made.now.game (λ g. IsFreeIn g.value choice) }
    ensures { IfOk result (λ o. IfSome o (λ g. (m : PlainModel) (h look : ℕ) (F : PlainFront) →
        IfSome made.now.game (λ b. IsGameOf m h look F b.value) →
        IsGameOf m h look (chosen_front F choice.agent choice.class choice.action) g)) }
{
    match &made.game {
        None => Ok(None),
        Some(game) => {
            let next = game
                .as_ref()
                .with_choice(alloc, choice.agent, choice.class, choice.action)?;
            Ok(Some(next))
        }
    }
}

// A game, if there is one, after a choice.
fn chosen_in(game: Option<Game>, choice: Choice) -> Option<Game>
    requires { IfSome game (λ g. IsFreeIn g choice) }
    ensures { IfSome result (λ g. (m : PlainModel) (h look : ℕ) (F : PlainFront) →
        IfSome game (IsGameOf m h look F) →
        IsGameOf m h look (chosen_front F choice.agent choice.class choice.action) g) }
{
    match game {
        None => None,
        Some(mut game) => {
            game.choose(choice.agent, choice.class, choice.action);
            Some(game)
        }
    }
}
