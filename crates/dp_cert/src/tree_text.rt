//! The tree of a certificate text: one node a line, each before its children.
ghost use Rattle.std.specs.Prelude.{◌≡◌, ◌∷◌, ◌<◌, ◌≤◌, length, map, slice_index, IfOk, IfErr};
ghost use Rattle.dp_spec.specs.BoundTree.{leaf};
ghost use Rattle.dp_spec.specs.CertificateText.{leaf_form, branch_form, merge_form};
ghost use Rattle.dp_lines.specs.Lines.{GivesLine};
ghost use Rattle.dp_lines.specs.Scanning.{line_at, lines_at, front_of};
ghost use Rattle.dp_tree.specs.TreeValue.{bound_tree};
ghost use Rattle.dp_cert.specs.declared.fault.CertFault.TheVariants as faults;
ghost use Rattle.dp_cert.specs.CertificateGrammar.{deepest, node_forms, tree_lines};
ghost use Rattle.dp_cert.specs.OpenNodes.{Closes, IsBranchWith, IsDeep, IsGiven, Places, frame_of, frames_of};
ghost use Rattle.dp_cert.specs.Reading.{Gives};
ghost use Rattle.dp_lines.specs.Reading.{rest_at};
ghost use Rattle.dp_cert.specs.NodeLines.{GivesFound, GivesNode, HasChild, found_of, kind_of, numbers_of};

use crate::CertFault;
use crate::lines::Lines;
use dp_lines::{FileWhy, LineFault, PlainRange, plain_line, signed_line};
use dp_model::{Limit, TooLarge};
use dp_tree::Tree;
use std::alloc::Global;

const ANY: PlainRange = PlainRange {
    low: 0,
    high: u32::MAX,
};

const CHILDREN: PlainRange = PlainRange { low: 1, high: 256 };

// The greatest number of branches and merges on a path.
const DEEPEST: usize = 2048;

/// A node as its line says it.
#[derive(Clone, Copy)]
pub(crate) enum Node {
    /// A leaf with its bound.
    Leaf(i128),
    /// A branch on a class of an agent, with so many children.
    Branch(u32, u32, u32),
    /// Two classes of an agent merged.
    Merge(u32, u32, u32),
}

/// A branch or a merge of which not all children are read.
#[derive(Drop)]
pub(crate) enum Open {
    Branch {
        agent: u32,
        class: u32,
        kids: Vec<Tree>,
        /// How many children follow the one that is being read.
        left: u32,
    },
    Merge {
        agent: u32,
        first: u32,
        second: u32,
    },
}

/// What becomes of an open node that is given a child.
#[derive(Drop)]
pub(crate) enum Given {
    /// It has all its children.
    Whole(Tree),
    /// More children are to come.
    Waits(Open),
}

/// The tree of the next lines, of which at most 2,048 nodes on a path are branches and merges.
pub(crate) fn tree_nodes<'a>(alloc: Global, from: Lines<'a>) -> Result<(Tree, Lines<'a>), CertFault>
    ensures { Gives (λ x. rest_at (bound_tree x.0) x.1.line x.1.rest.now) result
        (front_of (tree_lines 2048) from.entry.line from.entry.rest.now) }
{
    let mut waiting = Vec::new(alloc);
    let mut at = from;
    loop {
        let (node, behind) = next_node(alloc, at)?;
        at = behind;
        if let Some(tree) = place(alloc, &mut waiting, node)? {
            return Ok((tree, at));
        }
    }
}

// Puts a node below the open ones; the whole tree, where no child is to come.
fn place(alloc: Global, waiting: &mut Vec<Open>, node: Node) -> Result<Option<Tree>, CertFault>
    requires children { HasChild node }
    requires few { length waiting.old.items ≤ 2048 }
    ensures few { length waiting.new.items ≤ 2048 }
    ensures places { Places node (frames_of waiting.old.items) (frames_of waiting.new.items) result }
{
    match node {
        Node::Leaf(bound) => close(alloc, waiting, leaf_of(bound)),
        Node::Branch(agent, class, children) => {
            let branch = Open::Branch {
                agent,
                class,
                kids: Vec::new(alloc),
                left: children - 1,
            };
            push_open(waiting, branch)?;
            Ok(None)
        }
        Node::Merge(agent, first, second) => {
            let merge = Open::Merge {
                agent,
                first,
                second,
            };
            push_open(waiting, merge)?;
            Ok(None)
        }
    }
}

// One more open node, where there may be one.
fn push_open(waiting: &mut Vec<Open>, node: Open) -> Result<(), CertFault>
    requires few { length waiting.old.items ≤ 2048 }
    ensures ok { IfOk result (λ u. (length waiting.old.items < 2048)
        × (frames_of waiting.new.items ≡ frame_of node ∷ frames_of waiting.old.items)) }
    ensures err { IfErr result (λ fault. IsDeep fault (length waiting.old.items)) }
    ensures few { length waiting.new.items ≤ 2048 }
{
    if waiting.len() >= DEEPEST {
        return Err(too_deep());
    }
    waiting.push(node)?;
    Ok(())
}

// A leaf.
fn leaf_of(bound: i128) -> Tree
    ensures { bound_tree result ≡ leaf bound }
{
    Tree::Leaf { bound }
}

// Gives a finished tree to the deepest open node, and closes the nodes that are then finished.
fn close(alloc: Global, waiting: &mut Vec<Open>, tree: Tree) -> Result<Option<Tree>, CertFault>
    requires few { length waiting.old.items ≤ 2048 }
    ensures few { length waiting.new.items ≤ 2048 }
    ensures closes { Closes (bound_tree tree) (frames_of waiting.old.items) (frames_of waiting.new.items) result }
{
    let mut done = tree;
    while let Some(above) = waiting.pop() {
        match give(alloc, above, done)? {
            Given::Whole(tree) => done = tree,
            Given::Waits(above) => {
                waiting.push(above)?;
                return Ok(None);
            }
        }
    }
    Ok(Some(done))
}

// Gives a finished tree to an open node.
fn give(alloc: Global, above: Open, tree: Tree) -> Result<Given, CertFault>
    ensures gives { IfOk result (λ given. IsGiven (frame_of above) (bound_tree tree) given) }
    ensures err { IfErr result (λ fault. fault ≡ faults.Memory) }
{
    match above {
        Open::Branch {
            agent,
            class,
            mut kids,
            left,
        } => {
            kids.push(tree)?;
            Ok(branch_with(agent, class, kids, left))
        }
        Open::Merge {
            agent,
            first,
            second,
        } => {
            let kid = Box::new(alloc, tree)?;
            Ok(Given::Whole(Tree::Merge {
                agent,
                first,
                second,
                kid,
            }))
        }
    }
}

// A branch with these children, where so many follow.
fn branch_with(agent: u32, class: u32, kids: Vec<Tree>, left: u32) -> Given
    ensures { IsBranchWith agent class (map bound_tree kids.items) left result }
{
    if left == 0 {
        return Given::Whole(Tree::Branch { agent, class, kids });
    }
    Given::Waits(Open::Branch {
        agent,
        class,
        kids,
        left: left - 1,
    })
}

// One inner node more than a path may have.
fn too_deep() -> CertFault
    ensures { result ≡ faults.TooLarge deepest }
{
    CertFault::TooLarge(TooLarge {
        what: Limit::Depth,
        count: 2049,
    })
}

// The node of the next line, and the lines after it.
fn next_node<'a>(alloc: Global, from: Lines<'a>) -> Result<(Node, Lines<'a>), CertFault>
    ensures gives { GivesNode (λ x. (x.0, x.1.line, x.1.rest.now)) result from.entry.line
        (lines_at node_forms from.entry.rest.now) }
    ensures shorter { IfOk result (λ x. length x.1.rest.now < length from.entry.rest.now) }
    ensures child { IfOk result (λ x. HasChild x.0) }
{
    match node_line(alloc, from.rest) {
        Ok((node, rest)) => Ok((node, from.after(rest))),
        Err(LineFault::Bad(why)) => Err(CertFault::At {
            line: from.line,
            why,
        }),
        Err(LineFault::Memory) => Err(CertFault::Memory),
    }
}

// The node of the first line, and the bytes after it.
fn node_line(alloc: Global, bytes: &[u8]) -> Result<(Node, &[u8]), LineFault>
    ensures { GivesFound (λ x. found_of x.0 x.1.now) result (lines_at node_forms bytes.now) }
{
    let first = first_byte(bytes);
    if first == b'L' {
        return leaf_line(bytes);
    }
    if first == b'B' {
        return branch_line(alloc, bytes);
    }
    if first == b'M' {
        return merge_line(alloc, bytes);
    }
    Err(LineFault::Bad(FileWhy::Shape))
}

// The first byte, or 0 where there is none.
fn first_byte(bytes: &[u8]) -> u8
    ensures { result ≡ slice_index bytes.now 0 }
{
    match bytes {
        [] => 0,
        [byte, ..] => *byte,
    }
}

// The line of a leaf.
fn leaf_line(bytes: &[u8]) -> Result<(Node, &[u8]), LineFault>
    ensures gives { GivesLine (λ x. (numbers_of x.0, x.1.now)) result (line_at leaf_form bytes.now) }
    ensures kind { IfOk result (λ x. kind_of x.0 ≡ 0) }
{
    match signed_line(b"L", bytes) {
        Ok((bound, rest)) => Ok((Node::Leaf(bound), rest)),
        Err(fault) => Err(fault),
    }
}

// The line of a branch.
fn branch_line(alloc: Global, bytes: &[u8]) -> Result<(Node, &[u8]), LineFault>
    ensures gives { GivesLine (λ x. (numbers_of x.0, x.1.now)) result (line_at branch_form bytes.now) }
    ensures kind { IfOk result (λ x. kind_of x.0 ≡ 1) }
{
    match plain_line(alloc, b"B", bytes, &[ANY, ANY, CHILDREN]) {
        Ok((parts, rest)) => Ok((Node::Branch(parts[0], parts[1], parts[2]), rest)),
        Err(fault) => Err(fault),
    }
}

// The line of a merge.
fn merge_line(alloc: Global, bytes: &[u8]) -> Result<(Node, &[u8]), LineFault>
    ensures gives { GivesLine (λ x. (numbers_of x.0, x.1.now)) result (line_at merge_form bytes.now) }
    ensures kind { IfOk result (λ x. kind_of x.0 ≡ 2) }
{
    match plain_line(alloc, b"M", bytes, &[ANY, ANY, ANY]) {
        Ok((parts, rest)) => Ok((Node::Merge(parts[0], parts[1], parts[2]), rest)),
        Err(fault) => Err(fault),
    }
}
