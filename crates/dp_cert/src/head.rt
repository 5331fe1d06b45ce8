//! The lines of a certificate text before its policy.
ghost use Rattle.std.specs.Prelude.{◌≡◌, ◌+◌, ◌≤◌, [], ◌∷◌, None, IfOk, codes, cond, true, false};
ghost use Rattle.dp_spec.specs.CertificateText.{mode_form};
ghost use Rattle.dp_lines.specs.Scanning.{front_of};
ghost use Rattle.dp_cert.specs.CertificateGrammar.{head_grammar, horizon_grammar, horizon_passed, interval_grammar};
ghost use Rattle.dp_cert.specs.CertificateGrammar.{title_grammar};
ghost use Rattle.dp_lines.specs.Steps.{one_of, the_words};
ghost use Rattle.dp_cert.specs.HeadValue.{head_of, interval_of};
ghost use Rattle.dp_cert.specs.Reading.{Gives};
ghost use Rattle.dp_lines.specs.Reading.{rest_at};

use crate::CertFault;
use crate::lines::{Lines, number, one_of, with_sign, words};
use dp_lines::PlainRange;
use dp_model::{Model, TooLarge, fits, fits_two};
use std::alloc::Global;

// From 1 to the greatest number of 32 bits.
const SOME: PlainRange = PlainRange {
    low: 1,
    high: u32::MAX,
};

const LOOK: PlainRange = PlainRange { low: 1, high: 16 };

const ANY: PlainRange = PlainRange {
    low: 0,
    high: u32::MAX,
};

/// What stands between the horizon and the policy.
#[derive(Clone, Copy)]
pub(crate) struct Head {
    pub look: u32,
    pub exact: bool,
    pub interval: Interval,
    pub inner: u32,
}

/// The unit and the ends of the interval.
#[derive(Clone, Copy)]
pub(crate) struct Interval {
    pub unit: i128,
    pub lower: i128,
    pub upper: i128,
}

/// The version.
pub(crate) fn title(from: Lines<'_>) -> Result<(u32, Lines<'_>), CertFault>
    ensures { Gives (λ x. rest_at x.0 x.1.line x.1.rest.now) result
        (front_of title_grammar from.entry.line from.entry.rest.now) }
{
    let (is_first, to) = one_of(from, b"decplan certificate 1", b"decplan certificate 2")?;
    Ok((version_of(is_first), to))
}

// The version of a title.
fn version_of(is_first: bool) -> u32
    ensures { result ≡ cond is_first 0 1 + 1 }
{
    if is_first { 1 } else { 2 }
}

/// The horizon, which keeps the limits of its version.
pub(crate) fn horizon<'a>(
    alloc: Global,
    from: Lines<'a>,
    model: &Model,
    version: u32,
) -> Result<(u32, Lines<'a>), CertFault>
    ensures gives { Gives (λ x. rest_at x.0 x.1.line x.1.rest.now) result
        (front_of (horizon_grammar model.now.model version) from.entry.line from.entry.rest.now) }
    ensures kept { IfOk result (λ x. (1 ≤ x.0) × (horizon_passed model.now.model version x.0 ≡ None)) }
{
    let (horizon, to) = number(alloc, from, b"horizon", SOME)?;
    match passed_by_horizon(model, version, horizon) {
        None => Ok((horizon, to)),
        Some(passed) => Err(CertFault::TooLarge(passed)),
    }
}

// The limit that a horizon passes in a version.
#[tactic(auto, unfolding(crate::specs::CertificateGrammar::horizon_passed))]
fn passed_by_horizon(model: &Model, version: u32, horizon: u32) -> Option<TooLarge>
    requires { 1 ≤ horizon }
    ensures { result ≡ horizon_passed model.now.model version horizon }
{
    if version == 1 {
        fits(model, horizon).err()
    } else {
        fits_two(model, horizon).err()
    }
}

/// The lines between the horizon and the agents.
pub(crate) fn head_lines(alloc: Global, from: Lines<'_>) -> Result<(Head, Lines<'_>), CertFault>
    ensures { Gives (λ x. rest_at (head_of x.0) x.1.line x.1.rest.now) result
        (front_of head_grammar from.entry.line from.entry.rest.now) }
{
    let (look, at) = number(alloc, from, b"look", LOOK)?;
    let (exact, at) = mode(at)?;
    let (interval, at) = interval_lines(at)?;
    let (inner, at) = number(alloc, at, b"inner", ANY)?;
    let to = policy_title(at)?;
    let head = Head {
        look,
        exact,
        interval,
        inner,
    };
    Ok((head, to))
}

// The lines of the unit and of the ends.
fn interval_lines(from: Lines<'_>) -> Result<(Interval, Lines<'_>), CertFault>
    ensures { Gives (λ x. rest_at (interval_of x.0) x.1.line x.1.rest.now) result
        (front_of interval_grammar from.entry.line from.entry.rest.now) }
{
    let (unit, at) = with_sign(from, b"unit")?;
    let (lower, at) = with_sign(at, b"lower")?;
    let (upper, to) = with_sign(at, b"upper")?;
    Ok((Interval { unit, lower, upper }, to))
}

// The line before the agents.
fn policy_title(from: Lines<'_>) -> Result<Lines<'_>, CertFault>
    ensures { Gives (λ x. rest_at tt x.line x.rest.now) result
        (front_of (the_words (codes "policy" ∷ [])) from.entry.line from.entry.rest.now) }
{
    words(from, b"policy")
}

// The line of the mode: whether it is exact.
fn mode(from: Lines<'_>) -> Result<(bool, Lines<'_>), CertFault>
    ensures { Gives (λ x. rest_at (cond x.0 0 1) x.1.line x.1.rest.now) result
        (front_of (one_of (mode_form true) (mode_form false)) from.entry.line from.entry.rest.now) }
{
    one_of(from, b"mode exact", b"mode outward")
}
