ghost use Rattle.std.specs.Prelude.{◌≡◌, ◌+◌, ℕ, ℤ};
ghost use Rattle.dp_search.specs.Constants.{IsLeastGreatest};

/// An action, or a joint action, and what it is worth.
#[derive(Clone, Copy)]
pub struct ActionWorth {
    pub action: u32,
    pub worth: i128,
}

/// The second where its worth is the greater, else the first.
pub fn better(n: u32, first: ActionWorth, second: ActionWorth) -> ActionWorth
    requires next { second.action ≡ n }
    ensures best { (w : ℕ → ℤ) → IsLeastGreatest n w first.action → first.worth ≡ w first.action
        → second.worth ≡ w n → IsLeastGreatest (n + 1) w result.action × (result.worth ≡ w result.action) }
{
    if first.worth < second.worth {
        second
    } else {
        first
    }
}
