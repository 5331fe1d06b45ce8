// The line of a certificate that is not valid.
ghost use Rattle.std.specs.Prelude.{◌≡◌, string_bytes, IfOk};
ghost use Rattle.dp_cli.specs.ReasonLines.{mode_line, node_count_line, node_number_line, node_place_line};
ghost use Rattle.dp_cli.specs.ReasonLines.{node_unequal_line, number_line, reason_line};

use crate::value::mode_word;
use dp_base::Memory;
use dp_check::Reason;
use std::alloc::Global;

// The line that tells the first reason why a certificate is not valid.
pub fn line_of_reason(alloc: Global, reason: Reason) -> Result<String, Memory>
    ensures { IfOk result (λ line. string_bytes line ≡ reason_line reason) }
{
    match reason {
        Reason::Mode { found } => line_of_mode(alloc, found),
        Reason::Unit { found } => line_of_number(alloc, "unit", found),
        Reason::Lower { found } => line_of_number(alloc, "lower", found),
        Reason::Place { node } => line_of_place(alloc, node),
        Reason::Kids { node, found } => line_of_kids(alloc, node, found),
        Reason::NotEqual { node, place } => line_of_unequal(alloc, node, place),
        Reason::LeafBound { node, found } => line_of_bound(alloc, node, found),
        Reason::Inner { found } => line_of_number(alloc, "inner", i128::from(found)),
        Reason::Upper { found } => line_of_number(alloc, "upper", found),
    }
}

// The line of another mode.
fn line_of_mode(alloc: Global, found: bool) -> Result<String, Memory>
    ensures { IfOk result (λ line. string_bytes line ≡ mode_line found) }
{
    let word = mode_word(found);
    Ok(format!(in alloc; "rejected mode {word}\n")?)
}

// The line of another number in the head.
fn line_of_number(alloc: Global, word: &str, found: i128) -> Result<String, Memory>
    ensures { IfOk result (λ line. string_bytes line ≡ number_line word.now found) }
{
    Ok(format!(in alloc; "rejected {word} {found}\n")?)
}

// The line of a node that may not stand where it does.
fn line_of_place(alloc: Global, node: u32) -> Result<String, Memory>
    ensures { IfOk result (λ line. string_bytes line ≡ node_place_line node) }
{
    Ok(format!(in alloc; "rejected node {node} place\n")?)
}

// The line of a branch whose agent has another number of actions.
fn line_of_kids(alloc: Global, node: u32, found: u32) -> Result<String, Memory>
    ensures { IfOk result (λ line. string_bytes line ≡ node_count_line node found) }
{
    Ok(format!(in alloc; "rejected node {node} kids {found}\n")?)
}

// The line of a merge of classes that differ first at a place.
fn line_of_unequal(alloc: Global, node: u32, place: u32) -> Result<String, Memory>
    ensures { IfOk result (λ line. string_bytes line ≡ node_unequal_line node place) }
{
    Ok(format!(in alloc; "rejected node {node} not-equal {place}\n")?)
}

// The line of a leaf with another bound.
fn line_of_bound(alloc: Global, node: u32, found: i128) -> Result<String, Memory>
    ensures { IfOk result (λ line. string_bytes line ≡ node_number_line node found) }
{
    Ok(format!(in alloc; "rejected node {node} leaf-bound {found}\n")?)
}
