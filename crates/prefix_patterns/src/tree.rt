//! Trees of patterns by their bits.

ghost use Rattle.std.specs.Prelude.{◌≡◌, ℕ, ◌+◌, ◌<◌, ◌≤◌, ◌++◌, List, drop, length, vec_len, IfOk, OnOk};
ghost use Rattle.prefix_patterns.specs.Bits.{address_length};
ghost use Rattle.prefix_patterns.specs.Matching.{PrefixPattern, matches_any};
ghost use Rattle.prefix_patterns.specs.Trees.{HasEmptyFirst, IsUnion, IsUnionOfEnds, Reached, StandsFor, child, leaf_limit, side, tree_levels};
ghost use Rattle.prefix_patterns.specs.declared.leaf.Leaf.{Leaf as LeafView};
ghost use Rattle.prefix_patterns.specs.declared.tree.Node.{Node as NodeView};

use crate::leaf::{FEW, Leaf};
use crate::lengths::Lengths;
use crate::pattern::Pattern;
use crate::prefix::Prefix;
use std::alloc::AllocError;

/// Some of the patterns: a few of them by the index of their leaf, or more by that of their node.
#[derive(Clone, Copy)]
pub(crate) enum Subtree {
    Few(usize),
    Inner(usize),
}

/// A node of a tree.
#[derive(Clone, Copy)]
pub(crate) struct Node {
    /// The lengths that the patterns which end here allow.
    own: Lengths,
    /// The lengths that the patterns which end here or further down allow.
    below: Lengths,
    /// The patterns that go on with a 0.
    zero: Subtree,
    /// The patterns that go on with a 1.
    one: Subtree,
}

impl Node {
    /// The subtree of the patterns that go on with this bit.
    fn child(&self, bit: bool) -> &Subtree
        ensures { result.now ≡ child bit self.now }
    {
        if bit { &self.one } else { &self.zero }
    }
}

/// The lengths that the patterns which end at a depth allow, and those that any of the patterns allows.
fn lengths_of(part: &[Pattern], depth: u8) -> (Lengths, Lengths)
    ensures own { IsUnionOfEnds depth result.0 part.now }
    ensures below { IsUnion result.1 part.now }
{
    let mut own = Lengths::none();
    let mut below = Lengths::none();
    for pattern in part {
        let lengths = pattern.lengths();
        below = below.union(lengths);
        if pattern.prefix().len() <= depth {
            own = own.union(lengths);
        }
    }
    (own, below)
}

/// Appends those of the patterns from `from` on that have this bit at a depth.
fn push_side(part: &mut Vec<Pattern>, from: usize, depth: u8, bit: bool) -> Result<(), AllocError>
    requires { from ≤ vec_len part.old }
    ensures items { OnOk result (part.new.items ≡ part.old.items ++ side bit depth (drop from part.old.items)) }
    ensures shallow { vec_len part.old < vec_len part.new → depth < address_length }
{
    for at in from..part.len() {
        let pattern = part[at];
        if pattern.turns(bit, depth) {
            part.push(pattern)?;
        }
    }
    Ok(())
}

/// Appends a leaf of a few patterns. The first leaf is the one of no patterns.
fn push_few(leaves: &mut Vec<Leaf>, part: &[Pattern]) -> Result<Subtree, AllocError>
    requires few { length part.now ≤ leaf_limit }
    requires first { HasEmptyFirst leaves.old.items }
    ensures leaves { OnOk result ((more : List LeafView) × (leaves.new.items ≡ leaves.old.items ++ more)) }
    ensures stands { IfOk result (λ subtree. (levels : ℕ) (nodes : List NodeView) (depth : ℕ) →
        StandsFor levels nodes leaves.new.items depth subtree part.now) }
{
    if part.is_empty() {
        return Ok(Subtree::Few(0));
    }
    leaves.push(Leaf::of(part))?;
    Ok(Subtree::Few(leaves.len() - 1))
}

/// Makes the tree of the patterns of `part` from `from` on, which share the bits before `depth`. While it runs, it appends
/// patterns to `part`.
pub(crate) fn grow(
    nodes: &mut Vec<Node>,
    leaves: &mut Vec<Leaf>,
    part: &mut Vec<Pattern>,
    from: usize,
    depth: u8,
) -> Result<Subtree, AllocError>
    requires within { from ≤ vec_len part.old }
    requires shallow { from < vec_len part.old → depth ≤ address_length }
    requires first { HasEmptyFirst leaves.old.items }
    ensures part { OnOk result (part.new.items ≡ part.old.items) }
    ensures nodes { OnOk result ((more : List NodeView) × (nodes.new.items ≡ nodes.old.items ++ more)) }
    ensures leaves { OnOk result ((more : List LeafView) × (leaves.new.items ≡ leaves.old.items ++ more)) }
    ensures stands { IfOk result (λ subtree. (levels : ℕ) → levels + depth ≡ tree_levels →
        StandsFor levels nodes.new.items leaves.new.items depth subtree (drop from part.old.items)) }
{
    let end = part.len();
    if end - from <= FEW {
        return push_few(leaves, &part.as_slice()[from..]);
    }
    let (own, below) = lengths_of(&part.as_slice()[from..], depth);
    push_side(part, from, depth, false)?;
    let zero = grow(nodes, leaves, part, end, depth + 1)?;
    part.truncate(end);
    push_side(part, from, depth, true)?;
    let one = grow(nodes, leaves, part, end, depth + 1)?;
    part.truncate(end);
    nodes.push(Node {
        own,
        below,
        zero,
        one,
    })?;
    Ok(Subtree::Inner(nodes.len() - 1))
}

/// Whether a prefix matches one of the patterns of a tree whose patterns agree with its first `start` bits.
pub(crate) fn walk(
    nodes: &[Node],
    leaves: &[Leaf],
    root: &Subtree,
    start: u8,
    prefix: &Prefix,
) -> bool
    requires within { start ≤ length prefix.now }
    requires reached { (all : List PrefixPattern) × Reached nodes.now leaves.now prefix.now all start root.now }
    ensures { (all : List PrefixPattern) → Reached nodes.now leaves.now prefix.now all start root.now →
        result ≡ matches_any prefix.now all }
{
    let len = prefix.len();
    let mut subtree = root;
    let mut depth = start;
    'down: loop {
        let node = match subtree {
            Subtree::Few(at) => return leaves[*at].matches(prefix),
            Subtree::Inner(at) => &nodes[*at],
        };
        if node.own.has(len) {
            return true;
        }
        let Some(bit) = prefix.bit(depth) else {
            return node.below.has(len);
        };
        subtree = node.child(bit);
        depth += 1;
    }
}
