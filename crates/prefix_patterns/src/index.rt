//! The index of a large set: patterns in buckets by their first 8 bits, and a leaf or a tree for each bucket.
//!
//! **A set of more than 12 patterns has an index.** It puts the patterns into 256 buckets by their first 8 bits. Up to eight patterns of a bucket
//! have a leaf, and more of them a tree by the further bits. Those of fewer than 8 bits, if there are some, are in one more bucket with a tree of
//! its own. A node of a tree has two masks of lengths: those that patterns ending there allow, and those that any pattern below it allows. Where a
//! part of a tree has up to eight patterns, it is a leaf. For each prefix of up to 8 bits a mark says whether it matches one of the patterns of 8
//! bits or more. So a match takes at most 32 steps and one leaf in each of two trees, however many patterns there are. A smaller set has the leaves
//! of all its patterns, which are compared one after another: an index would take longer to build than a filter saves by it.
//!
//! **An index is cheap to build**, since `check` builds each set once and asks it nothing. Most buckets are empty or have a few patterns, and those
//! of a few become a leaf at once, which is filled where it stays. Links between patterns have 16 bits, and marks 8, so that little memory is
//! cleared. A leaf for each bucket, in the order of the buckets, would spare a match the look at a table, but 20 KB would have to be cleared for
//! each set.
//!
//! **Trees are built from the leaves up**, each from the list of its patterns, and a node is never changed. So what a node stands for, the patterns
//! that begin with the bits on the way to it, is proved once and stays true while more nodes are added. The list is split by copying it, so while
//! an index is built, up to 25 copies of a pattern are held: so many only of patterns that share all their bits.

ghost use Rattle.std.specs.Prelude.{◌≡◌, ◌+◌, ◌<◌, ◌≤◌, ◌++◌, ◌||◌, Bool, IsTrue, List, [], IfOk, OnOk, get_or, length};
ghost use Rattle.prefix_patterns.specs.Matching.{PrefixPattern, matches_any, pattern_limit};
ghost use Rattle.prefix_patterns.specs.Trees.{HasEmptyFirst, IsLeafOf, hits, in_bucket, index_of, short_bucket};
ghost use Rattle.prefix_patterns.specs.Index.{AreMarks, BucketStandsFor, HasChains, IsIndexOf, ShortStandsFor};
ghost use Rattle.prefix_patterns.specs.declared.leaf.Leaf.{Leaf as LeafView};
ghost use Rattle.prefix_patterns.specs.declared.tree.Node.{Node as NodeView};
ghost use Rattle.prefix_patterns.specs.declared.tree.Subtree.{Subtree as SubtreeView};

use crate::leaf::{FEW, Leaf};
use crate::pattern::{BUCKET_BITS, Pattern, SHORT_BUCKET};
use crate::prefix::Prefix;
use crate::tree::{Node, Subtree, grow, walk};
use std::alloc::{AllocError, Global};

/// The patterns of each bucket as a linked list, the last pattern first. A link is one more than the index of a pattern, and 0
/// ends the list. A set has at most 1,024 patterns, so links are small.
#[derive(Drop)]
pub(crate) struct Chains {
    /// For each bucket, the link to its first pattern.
    heads: Vec<u16>,
    /// For each pattern, the link to the next one of its bucket.
    next: Vec<u16>,
}

/// Puts patterns into their buckets.
fn chains_of(alloc: Global, patterns: &[Pattern]) -> Result<Chains, AllocError>
    requires { length patterns.now ≤ pattern_limit }
    ensures { IfOk result (λ chains. HasChains patterns.now chains) }
{
    let mut heads = vec![in alloc; 0; SHORT_BUCKET + 1]?;
    let mut next = Vec::with_capacity(alloc, patterns.len())?;
    for (at, pattern) in patterns.iter().enumerate() {
        let bucket = pattern.bucket();
        next.push(heads[bucket])?;
        heads[bucket] = (at + 1) as u16;
    }
    Ok(Chains { heads, next })
}

/// Appends the patterns of a bucket.
fn push_bucket(
    part: &mut Vec<Pattern>,
    patterns: &[Pattern],
    chains: &Chains,
    bucket: usize,
) -> Result<(), AllocError>
    requires chains { HasChains patterns.now chains.now }
    requires bucket { bucket ≤ short_bucket }
    ensures { OnOk result (part.new.items ≡ part.old.items ++ in_bucket bucket patterns.now) }
{
    let mut at = chains.heads[bucket];
    while at > 0 {
        let index = usize::from(at - 1);
        part.push(patterns[index])?;
        at = chains.next[index];
    }
    Ok(())
}

/// Puts the patterns of a bucket into a leaf, if they are few. False if they are not.
fn fill_leaf(leaf: &mut Leaf, patterns: &[Pattern], chains: &Chains, bucket: usize) -> bool
    requires empty { IsLeafOf leaf.old [] }
    requires chains { HasChains patterns.now chains.now }
    requires bucket { bucket < short_bucket }
    ensures { IsTrue result → IsLeafOf leaf.new (in_bucket bucket patterns.now) }
{
    let mut count = 0;
    let mut at = chains.heads[bucket];
    while at > 0 {
        if count == FEW {
            return false;
        }
        let index = usize::from(at - 1);
        leaf.put(count, &patterns[index]);
        count += 1;
        at = chains.next[index];
    }
    true
}

/// Marks the prefixes of up to 8 bits that match a pattern of 8 bits or more.
fn mark(marks: &mut [bool], pattern: &Pattern)
    requires count { length marks.old ≡ 512 }
    requires long { 8 ≤ length pattern.now.bits }
    ensures { (prefix : List Bool) (d : Bool) → length prefix ≤ 8 →
        get_or marks.new (index_of prefix) d ≡ (get_or marks.old (index_of prefix) d || hits prefix pattern.now) }
{
    let prefix = pattern.prefix();
    for len in pattern.low()..pattern.high().min(BUCKET_BITS) + 1 {
        marks[prefix.heap_index(len)] = true;
    }
}

/// Marks the prefixes of up to 8 bits that match one of the patterns of 8 bits or more.
fn marks_of(alloc: Global, patterns: &[Pattern]) -> Result<Vec<bool>, AllocError>
    ensures { IfOk result (λ marks. AreMarks marks.items patterns.now) }
{
    let mut marks = vec![in alloc; false; 2 * SHORT_BUCKET]?;
    for pattern in patterns {
        if pattern.prefix().len() >= BUCKET_BITS {
            mark(marks.as_mut_slice(), pattern);
        }
    }
    Ok(marks)
}

/// The leaf of no patterns, which all that have no patterns share, with room for other leaves.
fn first_leaves(alloc: Global, room: usize) -> Result<Vec<Leaf>, AllocError>
    ensures first { IfOk result (λ leaves. HasEmptyFirst leaves.items) }
    ensures count { IfOk result (λ leaves. length leaves.items ≡ 1) }
{
    let mut leaves = Vec::with_capacity(alloc, room)?;
    leaves.push(Leaf::none())?;
    Ok(leaves)
}

/// Makes the tree of the patterns of fewer than 8 bits, if there are some.
fn grow_short(
    nodes: &mut Vec<Node>,
    leaves: &mut Vec<Leaf>,
    part: &mut Vec<Pattern>,
) -> Result<Option<Subtree>, AllocError>
    requires { HasEmptyFirst leaves.old.items }
    ensures nodes { OnOk result ((more : List NodeView) × (nodes.new.items ≡ nodes.old.items ++ more)) }
    ensures leaves { OnOk result ((more : List LeafView) × (leaves.new.items ≡ leaves.old.items ++ more)) }
    ensures stands { IfOk result (λ short. ShortStandsFor nodes.new.items leaves.new.items short part.old.items) }
{
    if part.is_empty() {
        return Ok(None);
    }
    let subtree = grow(nodes, leaves, part, 0, 0)?;
    Ok(Some(subtree))
}

/// Where the patterns of a bucket are: a few of them in a leaf, or more in a tree, by its index. There are 256 buckets, so
/// indices are small, and all places find room in the first cache of a processor.
#[derive(Clone, Copy)]
pub(crate) enum Place {
    Few(u16),
    Many(u16),
}

/// Makes the leaf or the tree of a bucket. Most buckets of a set are empty and share a leaf, and most of the others have a few
/// patterns: these go into a leaf at once.
#[inline(always)]
fn grow_bucket(
    bucket_leaves: &mut Vec<Leaf>,
    trees: &mut Vec<Subtree>,
    nodes: &mut Vec<Node>,
    leaves: &mut Vec<Leaf>,
    part: &mut Vec<Pattern>,
    patterns: &[Pattern],
    chains: &Chains,
    bucket: usize,
) -> Result<Place, AllocError>
    requires chains { HasChains patterns.now chains.now }
    requires bucket { bucket < short_bucket }
    requires first { HasEmptyFirst leaves.old.items }
    requires bucket_first { HasEmptyFirst bucket_leaves.old.items }
    requires leaf_count { length bucket_leaves.old.items ≤ bucket + 1 }
    requires tree_count { length trees.old.items ≤ bucket }
    ensures leaf_count { OnOk result (length bucket_leaves.new.items ≤ bucket + 2) }
    ensures tree_count { OnOk result (length trees.new.items ≤ bucket + 1) }
    ensures bucket_leaves { OnOk result ((more : List LeafView) × (bucket_leaves.new.items ≡ bucket_leaves.old.items ++ more)) }
    ensures trees { OnOk result ((more : List SubtreeView) × (trees.new.items ≡ trees.old.items ++ more)) }
    ensures nodes { OnOk result ((more : List NodeView) × (nodes.new.items ≡ nodes.old.items ++ more)) }
    ensures leaves { OnOk result ((more : List LeafView) × (leaves.new.items ≡ leaves.old.items ++ more)) }
    ensures stands { IfOk result (λ place. BucketStandsFor nodes.new.items leaves.new.items bucket_leaves.new.items trees.new.items
        place (in_bucket bucket patterns.now)) }
{
    if chains.heads[bucket] == 0 {
        return Ok(Place::Few(0));
    }
    // The leaf is filled where it stays: a copy of it takes longer than what is written. One with too few places is left unused.
    let at = bucket_leaves.len();
    bucket_leaves.push(Leaf::none())?;
    if fill_leaf(&mut bucket_leaves[at], patterns, chains, bucket) {
        return Ok(Place::Few(at as u16));
    }
    part.clear();
    push_bucket(part, patterns, chains, bucket)?;
    let tree = grow(nodes, leaves, part, 0, BUCKET_BITS)?;
    trees.push(tree)?;
    Ok(Place::Many((trees.len() - 1) as u16))
}

/// The index of a set of patterns.
#[derive(Drop)]
pub(crate) struct PatternIndex {
    /// For each bucket the place of its patterns.
    places: Vec<Place>,
    /// The leaves of buckets. The first has no patterns.
    bucket_leaves: Vec<Leaf>,
    /// The trees of buckets. Each begins behind the 8 bits that its patterns share.
    trees: Vec<Subtree>,
    /// The tree of the patterns of fewer than 8 bits, if there are some.
    short: Option<Subtree>,
    /// The nodes and the leaves of all trees.
    nodes: Vec<Node>,
    leaves: Vec<Leaf>,
    /// For each prefix of up to 8 bits, whether it matches one of the patterns of 8 bits or more. The index of a prefix is
    /// the number whose digits are a 1 and its bits.
    marks: Vec<bool>,
}

impl PatternIndex {
    /// Makes the index of these patterns.
    pub fn build(alloc: Global, patterns: &[Pattern]) -> Result<PatternIndex, AllocError>
        requires { length patterns.now ≤ pattern_limit }
        ensures { IfOk result (λ index. IsIndexOf index patterns.now) }
    {
        let marks = marks_of(alloc, patterns)?;
        let chains = chains_of(alloc, patterns)?;
        let mut places = Vec::with_capacity(alloc, SHORT_BUCKET)?;
        let mut bucket_leaves = first_leaves(alloc, patterns.len().min(SHORT_BUCKET))?;
        let mut trees = Vec::new(alloc);
        let mut nodes = Vec::new(alloc);
        let mut leaves = first_leaves(alloc, 1)?;
        let mut part = Vec::new(alloc);
        for bucket in 0..SHORT_BUCKET {
            let place = grow_bucket(
                &mut bucket_leaves,
                &mut trees,
                &mut nodes,
                &mut leaves,
                &mut part,
                patterns,
                &chains,
                bucket,
            )?;
            places.push(place)?;
        }
        part.clear();
        push_bucket(&mut part, patterns, &chains, SHORT_BUCKET)?;
        let short = grow_short(&mut nodes, &mut leaves, &mut part)?;
        Ok(PatternIndex {
            places,
            bucket_leaves,
            trees,
            short,
            nodes,
            leaves,
            marks,
        })
    }

    /// Whether a prefix matches one of the patterns of fewer than 8 bits.
    fn matches_short(&self, prefix: &Prefix) -> bool
        requires { (patterns : List PrefixPattern) × IsIndexOf self.now patterns }
        ensures { (patterns : List PrefixPattern) → IsIndexOf self.now patterns →
            result ≡ matches_any prefix.now (in_bucket short_bucket patterns) }
    {
        match &self.short {
            Some(short) => walk(&self.nodes, &self.leaves, short, 0, prefix),
            None => false,
        }
    }

    /// Whether a prefix matches one of the patterns.
    #[inline(always)]
    pub fn matches(&self, prefix: &Prefix) -> bool
        requires { (patterns : List PrefixPattern) × IsIndexOf self.now patterns }
        ensures { (patterns : List PrefixPattern) → IsIndexOf self.now patterns → result ≡ matches_any prefix.now patterns }
    {
        if self.matches_short(prefix) {
            return true;
        }
        let len = prefix.len();
        if len <= BUCKET_BITS {
            return self.marks[prefix.heap_index(len)];
        }
        match self.places[prefix.leading(BUCKET_BITS)] {
            Place::Few(at) => self.bucket_leaves[usize::from(at)].matches(prefix),
            Place::Many(at) => {
                let tree = &self.trees[usize::from(at)];
                walk(&self.nodes, &self.leaves, tree, BUCKET_BITS, prefix)
            }
        }
    }
}
