ghost use Rattle.std.specs.Prelude.{◌+◌, ◌-◌, ◌*◌, ℕ, ℤ, pos, not, nat_lt, ◌≡◌, ◌≤◌};
ghost use Rattle.dp_search.specs.Toy.{toy_space, toy_front};

use crate::{Child, Expanded, Planner, search_best_first};
use dp_base::Memory;
use dp_tree::{Step, Tree};
use std::alloc::Global;
use std::test::Fail;

// A search over a binary tree: the root is 1, below n stand 2 n and 2 n + 1, and 8 to 15 are full.
struct Toy;

fn bound_of(n: u32) -> i128
    requires { n ≤ 100 }
    ensures { result ≡ pos (100 - n) }
{
    i128::from(100 - n)
}

impl Planner for Toy {
    type Front = u32;

    type Policy = u64;

    type Room = ();

    ghost IsReady = { λ _. Unit {0} };

    ghost space = { λ _. toy_space };

    ghost meaning = { λ _ n. toy_front n };

    ghost IsFront = { λ _ n. n ≤ 15 };

    ghost IsPolicy = { λ _ p. p ≤ 85 };

    ghost IsRoom = { λ _ _. Unit {0} };

    ghost worth = { λ _ p. pos p };

    ghost constants = { λ _. pos 80 };

    ghost IsBestConstant = { λ _ p. p ≡ 80 };

    ghost width = { λ _. 2 };

    fn most_children(&self) -> u32 {
        2
    }

    fn best_constant(&self, _alloc: Global) -> Result<u64, Memory> {
        Ok(80)
    }

    fn room(&self, _alloc: Global) -> Result<(), Memory> {
        Ok(())
    }

    fn low_worth(&self, _alloc: Global, policy: &u64) -> Result<i128, Memory> {
        Ok(i128::from(*policy))
    }

    fn root(&self, _alloc: Global, _room: &mut ()) -> Result<Child<u32>, Memory> {
        Ok(Child {
            front: 1,
            bound: 99,
        })
    }

    fn is_full(&self, front: &u32) -> bool {
        *front >= 8
    }

    fn is_wide(&self, above: u32, _front: &u32) -> bool {
        above >= 2048
    }

    fn policy(&self, _alloc: Global, front: &u32) -> Result<u64, Memory> {
        Ok(70 + u64::from(*front))
    }

    fn completion(
        &self,
        _alloc: Global,
        _room: &mut (),
        front: &u32,
    ) -> Result<Option<u64>, Memory> {
        Ok(Some(70 + u64::from(*front)))
    }

    fn expand(&self, alloc: Global, _room: &mut (), front: &u32) -> Result<Expanded<u32>, Memory> {
        let left = 2 * *front;
        let mut children = Vec::new(alloc);
        children.push(Child {
            front: left,
            bound: bound_of(left),
        })?;
        children.push(Child {
            front: left + 1,
            bound: bound_of(left + 1),
        })?;
        Ok(Expanded {
            step: Step::Branch { agent: 0, class: 0 },
            children,
        })
    }

    ghost use Rattle.std.proofs.Common.{arith};
    ghost use Rattle.std.proofs.lemmas.Bool.Decides.{nat_tests};

    ghost deep = { λ p above F full wide. Prim.grind (arith, nat_tests) };
}

#[test]
fn closes_in_seven_steps(rt: HostRuntime) -> Result<(), Fail> {
    let found = search_best_first(&Toy, rt.alloc(), 100)?;
    assert_eq!(rt; (found.inner, found.lower, found.policy), (7, 85, 85));
    match &found.tree {
        Tree::Branch { kids, .. } => assert_eq!(rt; kids.len(), 2),
        _ => assert!(rt; false),
    }
    Ok(())
}

#[test]
fn stops_at_the_budget(rt: HostRuntime) -> Result<(), Fail> {
    let found = search_best_first(&Toy, rt.alloc(), 3)?;
    assert_eq!(rt; (found.inner, found.lower, found.policy), (3, 80, 80));
    let none = search_best_first(&Toy, rt.alloc(), 0)?;
    assert_eq!(rt; (none.inner, none.lower, none.policy), (0, 80, 80));
    Ok(())
}
