// The branching rules of the orders of a plan.
ghost use Rattle.std.specs.Prelude.{◌≡◌, ◌<◌, ◌<ℤ◌, ◌≤ℤ◌, true, false, length, pos};
ghost use Rattle.dp_cli.specs.Orders.{IsFirstGreatest};

use dp_search::Place;

// The number of the first place of greatest weight.
pub fn heaviest(places: &[Place]) -> usize
    requires { 0 < length places.now }
    ensures { IsFirstGreatest (λ p. p.weight) places.now result }
{
    let mut best = 0;
    for number in 1..places.len() {
        if outweighs(&places[number], &places[best]) {
            best = number;
        }
    }
    best
}

// The number of the first place of greatest spread.
pub fn most_spread(places: &[Place]) -> usize
    requires { 0 < length places.now }
    ensures { IsFirstGreatest (λ p. pos p.spread) places.now result }
{
    let mut best = 0;
    for number in 1..places.len() {
        if places[best].spread < places[number].spread {
            best = number;
        }
    }
    best
}

// Whether a place has more weight than another.
fn outweighs(place: &Place, other: &Place) -> bool
    ensures more { result ≡ true → other.now.weight <ℤ place.now.weight }
    ensures not { result ≡ false → place.now.weight ≤ℤ other.now.weight }
{
    place.weight > other.weight
}
