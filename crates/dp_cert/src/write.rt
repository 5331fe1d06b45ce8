//! Certificate texts written.
ghost use Rattle.std.specs.Prelude.{◌≡◌, ◌<◌, ◌^◌, ◌++◌, ◌∷◌, ◌==◌, [], cond, true, false, codes, decimal, map};
ghost use Rattle.std.specs.Prelude.{length, FitsSigned, IfOk, OnOk};
ghost use Rattle.std.specs.Int.{w128};
ghost use Rattle.std.specs.Fmt.{signed_decimal};
ghost use Rattle.dp_spec.specs.Certificate.{HasPolicyOfVersion, IsCertificateOf};
ghost use Rattle.dp_spec.specs.CertificateText.{IsCertificateText, certificate_text};
ghost use Rattle.dp_spec.specs.Model.{IsModel, Model};
ghost use Rattle.dp_tree.specs.TreeValue.{bound_tree};
ghost use Rattle.dp_cert.specs.CertificateBytes.{actions_bytes, agents_bytes, certificate_bytes, counted_bytes};
ghost use Rattle.dp_cert.specs.CertificateBytes.{counts_bytes, head_bytes, interval_bytes, manner_bytes, node_bytes};
ghost use Rattle.dp_cert.specs.CertificateBytes.{plain_bytes, row_bytes, rows_bytes, signed_bytes, stages_bytes};
ghost use Rattle.dp_cert.specs.CertificateBytes.{three_bytes};
ghost use Rattle.dp_lines.specs.Lines.{row_tail};
ghost use Rattle.dp_cert.specs.CertificateValue.{certificate_of};
ghost use Rattle.dp_cert.specs.TypedNumbers.{HasTypedEnds, HasTypedHead, HasTypedNumbers, IsTyped};

use crate::Certificate;
use dp_base::Memory;
use dp_policy::Row;
use dp_tree::Tree;
use itoa::Buffer;
use std::alloc::Global;

/// The one text of a certificate that fits a model, whose lines allow all its numbers. It takes memory linear
/// in the text, and time linear in the certificate. The error is want of memory.
pub fn write_cert(alloc: Global, certificate: &Certificate) -> Result<Vec<u8>, Memory>
    ensures bytes { IfOk result (λ text. text.items ≡ certificate_bytes (certificate_of certificate.now)) }
    ensures text { IfOk result (λ text. (m : Model) → HasPolicyOfVersion m (certificate_of certificate.now) →
        text.items ≡ certificate_text m.actions m.observations (certificate_of certificate.now)) }
    ensures spelled { IfOk result (λ text. (m : Model) → IsModel m
        → IsCertificateOf m (certificate_of certificate.now)
        → IsCertificateText m text.items (certificate_of certificate.now)) }
{
    let text = written(alloc, certificate)?;
    Ok(text)
}

// The bytes of a certificate.
fn written(alloc: Global, certificate: &Certificate) -> Result<Vec<u8>, Memory>
    ensures bytes { IfOk result (λ text. text.items ≡ certificate_bytes (certificate_of certificate.now)) }
    ensures typed { IfOk result (λ text. IsTyped (certificate_of certificate.now)) }
{
    let mut text = Vec::new(alloc);
    push_head(&mut text, certificate)?;
    push_agents(
        &mut text,
        certificate.version,
        certificate.policy.all_rows(),
    )?;
    push_nodes(&mut text, &certificate.tree)?;
    Ok(text)
}

// The lines of all agents in the rows of a version.
fn push_agents(text: &mut Vec<u8>, version: u32, agents: &[Vec<Vec<Row>>]) -> Result<(), Memory>
    ensures { OnOk result (text.new.items ≡ text.old.items
        ++ agents_bytes (cond (version == 1) actions_bytes counted_bytes) 0
        (map (λ s. map (λ r. r.items) s.items) agents.now)) }
{
    if version == 1 {
        push_plain_agents(text, agents)
    } else {
        push_shared_agents(text, agents)
    }
}

// The lines behind the policy.
fn push_nodes(text: &mut Vec<u8>, tree: &Tree) -> Result<(), Memory>
    ensures bytes { OnOk result (text.new.items
        ≡ text.old.items ++ (codes "tree\n" ++ (node_bytes (bound_tree tree.now) ++ codes "end\n"))) }
    ensures typed { OnOk result (HasTypedNumbers (bound_tree tree.now)) }
{
    text.extend_from_slice(b"tree\n")?;
    push_tree(text, tree)?;
    text.extend_from_slice(b"end\n")?;
    Ok(())
}

// The lines before the agents.
fn push_head(text: &mut Vec<u8>, certificate: &Certificate) -> Result<(), Memory>
    ensures bytes { OnOk result (text.new.items ≡ text.old.items ++ head_bytes (certificate_of certificate.now)) }
    ensures typed { OnOk result (HasTypedHead (certificate_of certificate.now)) }
{
    push_manner(text, certificate)?;
    push_interval(text, certificate)?;
    push_inner(text, certificate.inner)?;
    text.extend_from_slice(b"policy\n")?;
    Ok(())
}

// The line of how many branches and merges the tree has.
fn push_inner(text: &mut Vec<u8>, inner: u32) -> Result<(), Memory>
    ensures bytes { OnOk result (text.new.items ≡ text.old.items ++ plain_bytes (codes "inner ") inner) }
    ensures typed { inner < 2 ^ 32 }
{
    push_plain(text, b"inner ", u64::from(inner))
}

// The lines before the interval.
fn push_manner(text: &mut Vec<u8>, certificate: &Certificate) -> Result<(), Memory>
    ensures { OnOk result (text.new.items ≡ text.old.items ++ manner_bytes (certificate_of certificate.now)) }
{
    push_plain(
        text,
        b"decplan certificate ",
        u64::from(certificate.version),
    )?;
    push_plain(text, b"horizon ", u64::from(certificate.horizon))?;
    push_plain(text, b"look ", u64::from(certificate.look))?;
    push_mode(text, certificate.exact)
}

// The lines of the interval.
fn push_interval(text: &mut Vec<u8>, certificate: &Certificate) -> Result<(), Memory>
    ensures bytes { OnOk result (text.new.items ≡ text.old.items ++ interval_bytes (certificate_of certificate.now)) }
    ensures typed { OnOk result (HasTypedEnds (certificate_of certificate.now)) }
{
    push_value(text, b"unit ", &certificate.unit)?;
    push_value(text, b"lower ", &certificate.lower)?;
    push_value(text, b"upper ", &certificate.upper)
}

// The line of the mode.
fn push_mode(text: &mut Vec<u8>, exact: bool) -> Result<(), Memory>
    ensures { OnOk result (text.new.items
        ≡ text.old.items ++ cond exact (codes "mode exact\n") (codes "mode outward\n")) }
{
    if exact {
        text.extend_from_slice(b"mode exact\n")?;
    } else {
        text.extend_from_slice(b"mode outward\n")?;
    }
    Ok(())
}

// The lines of all agents in version 1.
fn push_plain_agents(text: &mut Vec<u8>, agents: &[Vec<Vec<Row>>]) -> Result<(), Memory>
    ensures { OnOk result (text.new.items ≡ text.old.items
        ++ agents_bytes actions_bytes 0 (map (λ s. map (λ r. r.items) s.items) agents.now)) }
{
    let mut number: u64 = 0;
    for stages in agents {
        push_plain(text, b"agent ", number)?;
        push_actions(text, stages.as_slice())?;
        number += 1;
    }
    Ok(())
}

// The lines of all agents in version 2.
fn push_shared_agents(text: &mut Vec<u8>, agents: &[Vec<Vec<Row>>]) -> Result<(), Memory>
    ensures { OnOk result (text.new.items ≡ text.old.items
        ++ agents_bytes counted_bytes 0 (map (λ s. map (λ r. r.items) s.items) agents.now)) }
{
    let mut number: u64 = 0;
    for stages in agents {
        push_plain(text, b"agent ", number)?;
        push_counted(text, stages.as_slice())?;
        number += 1;
    }
    Ok(())
}

// For each stage the line of its actions.
fn push_actions(text: &mut Vec<u8>, stages: &[Vec<Row>]) -> Result<(), Memory>
    ensures { OnOk result (text.new.items ≡ text.old.items ++ actions_bytes (map (λ r. r.items) stages.now)) }
{
    for rows in stages {
        push_action_line(text, rows.as_slice())?;
    }
    Ok(())
}

// The actions of rows on one line.
fn push_action_line(text: &mut Vec<u8>, rows: &[Row]) -> Result<(), Memory>
    ensures { OnOk result (text.new.items
        ≡ text.old.items ++ (row_tail true (map (λ r. r.action) rows.now) ++ 10 ∷ [])) }
{
    let mut first = true;
    for row in rows {
        if !first {
            text.push(b' ')?;
        }
        push_number(text, u64::from(row.action))?;
        first = false;
    }
    text.push(b'\n')?;
    Ok(())
}

// The line of the counts of the stages, and the lines of their rows.
fn push_counted(text: &mut Vec<u8>, stages: &[Vec<Row>]) -> Result<(), Memory>
    ensures { OnOk result (text.new.items ≡ text.old.items ++ counted_bytes (map (λ r. r.items) stages.now)) }
{
    push_count_line(text, stages)?;
    push_stages(text, stages)
}

// The line of the counts.
fn push_count_line(text: &mut Vec<u8>, stages: &[Vec<Row>]) -> Result<(), Memory>
    ensures { OnOk result (text.new.items ≡ text.old.items ++ counts_bytes (map (λ r. r.items) stages.now)) }
{
    text.extend_from_slice(b"rows")?;
    push_counts(text, stages)?;
    text.push(b'\n')?;
    Ok(())
}

// The counts of the stages, each behind a space.
fn push_counts(text: &mut Vec<u8>, stages: &[Vec<Row>]) -> Result<(), Memory>
    ensures { OnOk result (text.new.items ≡ text.old.items ++ row_tail false (map (λ r. length r.items) stages.now)) }
{
    for rows in stages {
        text.push(b' ')?;
        push_number(text, rows.len() as u64)?;
    }
    Ok(())
}

// The lines of the rows of all stages.
fn push_stages(text: &mut Vec<u8>, stages: &[Vec<Row>]) -> Result<(), Memory>
    ensures { OnOk result (text.new.items ≡ text.old.items ++ stages_bytes (map (λ r. r.items) stages.now)) }
{
    for rows in stages {
        push_rows(text, rows.as_slice())?;
    }
    Ok(())
}

// The lines of rows.
fn push_rows(text: &mut Vec<u8>, rows: &[Row]) -> Result<(), Memory>
    ensures { OnOk result (text.new.items ≡ text.old.items ++ rows_bytes rows.now) }
{
    for row in rows {
        push_row(text, row)?;
    }
    Ok(())
}

// The line of a row: its action and its next rows.
fn push_row(text: &mut Vec<u8>, row: &Row) -> Result<(), Memory>
    ensures { OnOk result (text.new.items ≡ text.old.items ++ row_bytes row.now) }
{
    push_number(text, u64::from(row.action))?;
    push_nexts(text, row.next.as_slice())?;
    text.push(b'\n')?;
    Ok(())
}

// Numbers, each behind a space.
fn push_nexts(text: &mut Vec<u8>, nexts: &[u32]) -> Result<(), Memory>
    ensures { OnOk result (text.new.items ≡ text.old.items ++ row_tail false nexts.now) }
{
    for next in nexts {
        text.push(b' ')?;
        push_number(text, u64::from(*next))?;
    }
    Ok(())
}

// The lines of a tree, each node before its children.
fn push_tree(text: &mut Vec<u8>, tree: &Tree) -> Result<(), Memory>
    ensures bytes { OnOk result (text.new.items ≡ text.old.items ++ node_bytes (bound_tree tree.now)) }
    ensures typed { OnOk result (HasTypedNumbers (bound_tree tree.now)) }
{
    match tree {
        Tree::Leaf { bound } => push_value(text, b"L ", bound),
        Tree::Branch { agent, class, kids } => {
            push_three(text, b"B ", *agent, *class, kids.len() as u64)?;
            for kid in kids {
                push_tree(text, kid)?;
            }
            Ok(())
        }
        Tree::Merge {
            agent,
            first,
            second,
            kid,
        } => {
            push_three(text, b"M ", *agent, *first, u64::from(*second))?;
            push_tree(text, kid)
        }
    }
}

// A line of a word and a number with its sign that stands in a value.
fn push_value(text: &mut Vec<u8>, word: &[u8], number: &i128) -> Result<(), Memory>
    ensures bytes { OnOk result (text.new.items ≡ text.old.items ++ signed_bytes word.now number.now) }
    ensures typed { FitsSigned w128 number.now }
{
    let number = *number;
    push_signed(text, word, number)
}

// A line of a word and three numbers.
fn push_three(text: &mut Vec<u8>, word: &[u8], a: u32, b: u32, c: u64) -> Result<(), Memory>
    ensures { OnOk result (text.new.items ≡ text.old.items ++ three_bytes word.now a b c) }
{
    text.extend_from_slice(word)?;
    push_number(text, u64::from(a))?;
    text.push(b' ')?;
    push_number(text, u64::from(b))?;
    text.push(b' ')?;
    push_number(text, c)?;
    text.push(b'\n')?;
    Ok(())
}

// A line of a word and a number with its sign.
fn push_signed(text: &mut Vec<u8>, word: &[u8], number: i128) -> Result<(), Memory>
    ensures { OnOk result (text.new.items ≡ text.old.items ++ signed_bytes word.now number) }
{
    let mut buffer = Buffer::new();
    text.extend_from_slice(word)?;
    text.extend_from_slice(buffer.format(number).as_bytes())?;
    text.push(b'\n')?;
    Ok(())
}

// A line of a word and a number without a sign.
fn push_plain(text: &mut Vec<u8>, word: &[u8], number: u64) -> Result<(), Memory>
    ensures { OnOk result (text.new.items ≡ text.old.items ++ plain_bytes word.now number) }
{
    text.extend_from_slice(word)?;
    push_number(text, number)?;
    text.push(b'\n')?;
    Ok(())
}

// A number in digits.
fn push_number(text: &mut Vec<u8>, number: u64) -> Result<(), Memory>
    ensures { OnOk result (text.new.items ≡ text.old.items ++ decimal number) }
{
    let mut buffer = Buffer::new();
    text.extend_from_slice(buffer.format(number).as_bytes())?;
    Ok(())
}
