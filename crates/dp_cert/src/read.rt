//! Certificate texts read.
ghost use Rattle.std.specs.Prelude.{◌≡◌, ◌≤◌, ◌^◌, IfOk, None, length, map};
ghost use Rattle.dp_spec.specs.Certificate.{IsCertificateOf};
ghost use Rattle.dp_spec.specs.CertificateText.{IsCertificateText};
ghost use Rattle.dp_lines.specs.Scanning.{front_of, text_from};
ghost use Rattle.dp_tree.specs.TreeValue.{bound_tree};
ghost use Rattle.dp_cert.specs.CertificateGrammar.{certificate_from, certificate_grammar, horizon_passed};
ghost use Rattle.dp_cert.specs.CertificateGrammar.{tree_grammar};
ghost use Rattle.dp_cert.specs.CertificateLaws.{IsReadWhole};
ghost use Rattle.dp_cert.specs.CertificateValue.{certificate_of};
ghost use Rattle.dp_cert.specs.HeadValue.{head_of};
ghost use Rattle.dp_cert.specs.PolicyGrammar.{policy_grammar};
ghost use Rattle.dp_cert.specs.Reading.{Answers, Gives};
ghost use Rattle.dp_lines.specs.Reading.{rest_at};

use crate::head::{Head, head_lines, horizon, title};
use crate::lines::{Lines, words};
use crate::plain_text::plain_agents;
use crate::shared_text::shared_agents;
use crate::tree_text::tree_nodes;
use crate::{CertFault, Certificate};
use dp_lines::FileWhy;
use dp_model::Model;
use dp_policy::{Row, Shared, join_rows};
use dp_tree::Tree;
use std::alloc::Global;

/// The certificate of a text of either version for a model. The texts of certificates for a model, and the
/// first line of other bytes that is not as required, are those of the grammar `certificate_grammar`. The
/// limits that may come before such a line are those of the horizon in the version of the text, then, in
/// version 2, `policy-cells` at the line of an agent's counts, with the first product of states and joint
/// rows that is too large, and `depth`, with 2049, at the line of the 2,049th branch or merge on a path.
/// The bytes are the one text of what is read, and that can be a certificate for the model, as `fits` asks.
/// The text of each certificate of the model whose horizon and tree keep the limits is read as this
/// certificate. `Memory` is for want of memory alone.
pub fn read_cert(alloc: Global, bytes: &[u8], model: &Model) -> Result<Certificate, CertFault>
    requires { length bytes.now ≤ 2 ^ 28 }
    ensures answers { Answers certificate_of result (certificate_grammar model.now.model) bytes.now }
    ensures text { IfOk result (λ c. IsCertificateText model.now.model bytes.now (certificate_of c)) }
    ensures fits { IfOk result (λ c. IsCertificateOf model.now.model (certificate_of c)) }
    ensures each { IsReadWhole certificate_of result model.now.model bytes.now }
{
    model.invariant();
    read(alloc, bytes, model)
}

// What is computed of the bytes.
fn read(alloc: Global, bytes: &[u8], model: &Model) -> Result<Certificate, CertFault>
    requires { length bytes.now ≤ 2 ^ 28 }
    ensures { Gives certificate_of result (text_from (certificate_grammar model.now.model) 1 bytes.now) }
{
    let start = Lines {
        line: 1,
        rest: bytes,
    };
    let (certificate, end) = lines(alloc, start, model)?;
    if !end.rest.is_empty() {
        return Err(CertFault::At {
            line: end.line,
            why: FileWhy::Shape,
        });
    }
    Ok(certificate)
}

// The certificate of the lines from the first one on.
fn lines<'a>(
    alloc: Global,
    from: Lines<'a>,
    model: &Model,
) -> Result<(Certificate, Lines<'a>), CertFault>
    ensures { Gives (λ x. rest_at (certificate_of x.0) x.1.line x.1.rest.now) result
        (front_of (certificate_grammar model.now.model) from.entry.line from.entry.rest.now) }
{
    let (version, at) = title(from)?;
    let (horizon, at) = horizon(alloc, at, model, version)?;
    let (head, at) = head_lines(alloc, at)?;
    let (policy, at) = policy(alloc, at, model, version, horizon)?;
    let (tree, end) = tree_part(alloc, at)?;
    Ok((certificate_with(version, horizon, head, policy, tree), end))
}

// A certificate of these parts.
fn certificate_with(
    version: u32,
    horizon: u32,
    head: Head,
    policy: Shared,
    tree: Tree,
) -> Certificate
    ensures { certificate_of result
        ≡ certificate_from version horizon (head_of head) policy.rows (bound_tree tree) }
{
    Certificate {
        version,
        horizon,
        look: head.look,
        exact: head.exact,
        unit: head.interval.unit,
        lower: head.interval.lower,
        upper: head.interval.upper,
        inner: head.inner,
        policy,
        tree,
    }
}

// The policy in the rows of a version.
fn policy<'a>(
    alloc: Global,
    from: Lines<'a>,
    model: &Model,
    version: u32,
    horizon: u32,
) -> Result<(Shared, Lines<'a>), CertFault>
    requires some_step { 1 ≤ horizon }
    requires kept { horizon_passed model.now.model version horizon ≡ None }
    ensures { Gives (λ x. rest_at x.0.rows x.1.line x.1.rest.now) result
        (front_of (policy_grammar model.now.model version horizon) from.entry.line from.entry.rest.now) }
{
    model.invariant();
    let (rows, at) = policy_rows(alloc, from, model, version, horizon)?;
    let Some(policy) = join_rows(rows, model, horizon) else {
        unreachable!()
    };
    Ok((policy, at))
}

// The rows of the policy.
fn policy_rows<'a>(
    alloc: Global,
    from: Lines<'a>,
    model: &Model,
    version: u32,
    horizon: u32,
) -> Result<(Vec<Vec<Vec<Row>>>, Lines<'a>), CertFault>
    requires some_step { 1 ≤ horizon }
    requires kept { horizon_passed model.now.model version horizon ≡ None }
    ensures { Gives (λ x. rest_at (map (λ s. map (λ r. r.items) s.items) x.0.items) x.1.line x.1.rest.now) result
        (front_of (policy_grammar model.now.model version horizon) from.entry.line from.entry.rest.now) }
{
    if version == 1 {
        plain_agents(alloc, from, model, horizon)
    } else {
        shared_agents(alloc, from, model, horizon)
    }
}

// The tree, with the lines before it and behind it.
fn tree_part<'a>(alloc: Global, from: Lines<'a>) -> Result<(Tree, Lines<'a>), CertFault>
    ensures { Gives (λ x. rest_at (bound_tree x.0) x.1.line x.1.rest.now) result
        (front_of tree_grammar from.entry.line from.entry.rest.now) }
{
    let at = words(from, b"tree")?;
    let (tree, at) = tree_nodes(alloc, at)?;
    let to = words(at, b"end")?;
    Ok((tree, to))
}
