//! The arithmetic that weights, rewards, values and bounds are computed in.
ghost use Rattle.std.specs.Prelude.{◌≡◌};
ghost use Rattle.dp_spec.specs.Arithmetic.{Arithmetic};
ghost use Rattle.dp_spec.specs.Calls.{AreInRange, Calls};
ghost use Rattle.dp_spec.specs.Enclosure.{IsSound, enclosure};
ghost use Rattle.dp_spec.specs.declared.scales.Scales.{Scales};

use dp_spec::Span;

/// An arithmetic for weights, rewards, values and bounds, over the scales of a model.
///
/// It is `Exact` or `Outward`. Each call gives what the operation of its name in `operations` does,
/// and asks for arguments that `calls` allows. Over scales in range, as those of a model are, the
/// operations are sound: each gives the true number, or numbers on either side of it.
pub trait Arith {
    ghost scales_of: { Self → Scales };

    ghost operations: { Self → Arithmetic };

    ghost calls: { Self → Calls };

    /// The weight of the start chance `b`.
    fn start(&self, b: u64) -> Span
        requires allowed { (calls self.now).Start b }
        ensures { result ≡ (operations self.now).start b };

    /// The weight 1.
    fn one(&self) -> Span
        ensures { result ≡ (operations self.now).one };

    /// The weight `w` times the chance `p` of a next state and the chance `z` of a joint observation.
    fn chance(&self, w: Span, p: u64, z: u64) -> Span
        requires allowed { (calls self.now).Chance w p z }
        ensures { result ≡ (operations self.now).chance w p z };

    /// The weight `c` times the discount.
    fn later(&self, c: Span) -> Span
        requires allowed { (calls self.now).Later c }
        ensures { result ≡ (operations self.now).later c };

    /// The weight `c` times the reward `r`, where `rest` steps are left after this one.
    fn gain(&self, c: Span, r: i64, rest: u32) -> Span
        requires allowed { (calls self.now).Gain c r rest }
        ensures { result ≡ (operations self.now).gain c r rest };

    /// The value `v` of the table times the chance `p` of a next state and the discount, from above.
    fn carry(&self, v: i128, p: u64) -> i128
        requires allowed { (calls self.now).Carry v p }
        ensures { result ≡ (operations self.now).carry v p };

    /// The weight `w` times the value `v` of the table, from above.
    fn tail(&self, w: Span, v: i128) -> i128
        requires allowed { (calls self.now).Tail w v }
        ensures { result ≡ (operations self.now).tail w v };

    // Over scales in range each operation is sound: its results are the true numbers or enclose them.
    ghost holds: { (a : Self) → AreInRange (scales_of a) →
        IsSound (scales_of a) (operations a) (enclosure (operations a).is_exact) };
}
