//! Policy texts written.
ghost use Rattle.std.specs.Prelude.{◌≡◌, ℕ, List, ◌++◌, ◌∷◌, [], ◌<◌, ◌≤◌, ◌^◌, true, false, codes, decimal, IfOk};
ghost use Rattle.std.specs.Prelude.{OnOk, Ok, length, map};
ghost use Rattle.std.specs.List.{range_with_len};
ghost use Rattle.dp_spec.specs.Model.{Model, IsModel};
ghost use Rattle.dp_spec.specs.PolicyText.{policy_text};
ghost use Rattle.dp_spec.specs.PolicyTree.{IsJointPolicy, IsPolicyOf};
ghost use Rattle.dp_policy.specs.ActionRows.{actions_below};
ghost use Rattle.dp_policy.specs.PolicyAnswers.{IsPolicyAnswer, PassesNone, said_by};
ghost use Rattle.dp_lines.specs.Lines.{row_tail};
ghost use Rattle.dp_policy.specs.PolicyBytes.{row_bytes, rows_bytes, agents_bytes, policy_bytes};
ghost use Rattle.dp_policy.specs.TreeValue.{policy_tree};
ghost use Rattle.dp_policy.specs.Trees.{joint_policy};

use crate::actions::push_actions;
use crate::{PTree, Policy};
use dp_base::Memory;
use itoa::Buffer;
use std::alloc::Global;

/// The text of a joint policy. Reading it for a model that the policy fits gives the policy, where its
/// horizon passes no limit.
pub fn write_policy(alloc: Global, policy: &Policy) -> Result<Vec<u8>, Memory>
    ensures text { IfOk result (λ text. (bs ns : List ℕ) →
        IsJointPolicy policy.now.horizon bs ns (joint_policy policy.now) →
        text.items ≡ policy_text bs ns policy.now.horizon (joint_policy policy.now)) }
    ensures read_back { IfOk result (λ text. (m : Model) → IsModel m →
        IsPolicyOf m policy.now.horizon (joint_policy policy.now) → PassesNone m policy.now.horizon →
        IsPolicyAnswer m text.items (Ok (said_by policy.now))) }
{
    policy.invariant();
    let text = written(alloc, policy)?;
    Ok(text)
}

// The bytes of a joint policy.
fn written(alloc: Global, policy: &Policy) -> Result<Vec<u8>, Memory>
    ensures { IfOk result (λ text. text.items ≡ policy_bytes policy.now.horizon
        (map (λ q. map (λ t. actions_below t q) (range_with_len 0 policy.now.horizon)) (joint_policy policy.now))) }
{
    let mut text = Vec::new(alloc);
    text.extend_from_slice(b"decplan policy 1\nhorizon ")?;
    push_number(&mut text, policy.horizon())?;
    text.push(b'\n')?;
    for agent in 0..policy.agents() {
        text.extend_from_slice(b"agent ")?;
        push_number(&mut text, agent)?;
        text.push(b'\n')?;
        push_rows(alloc, &mut text, policy.tree(agent), policy.horizon())?;
    }
    text.extend_from_slice(b"end\n")?;
    Ok(text)
}

// The lines of the stages of an agent.
fn push_rows(alloc: Global, text: &mut Vec<u8>, tree: &PTree, horizon: u32) -> Result<(), Memory>
    ensures { OnOk result (text.new.items ≡ text.old.items
        ++ rows_bytes (map (λ t. actions_below t (policy_tree tree.now)) (range_with_len 0 horizon))) }
{
    let mut row = Vec::new(alloc);
    for stage in 0..horizon {
        row.clear();
        push_actions(&mut row, tree, stage)?;
        push_row(text, row.as_slice())?;
    }
    Ok(())
}

// The line of a stage.
fn push_row(text: &mut Vec<u8>, row: &[u32]) -> Result<(), Memory>
    ensures { OnOk result (text.new.items ≡ text.old.items ++ row_bytes row.now) }
{
    let mut first = true;
    for action in row {
        if !first {
            text.push(b' ')?;
        }
        push_number(text, *action)?;
        first = false;
    }
    text.push(b'\n')?;
    Ok(())
}

// A number in digits.
fn push_number(text: &mut Vec<u8>, number: u32) -> Result<(), Memory>
    ensures { OnOk result (text.new.items ≡ text.old.items ++ decimal number) }
{
    let mut buffer = Buffer::new();
    text.extend_from_slice(buffer.format(number).as_bytes())?;
    Ok(())
}
