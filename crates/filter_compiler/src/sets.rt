//! The sets of a filter, in the order of the text.
//!
//! **Sets are built when the code is known to fit**, so that refused memory is the only fault that can come then. Until then they are lists of
//! patterns.

ghost use Rattle.std.specs.Prelude.{◌≡◌, ◌≤◌, [], ◌∷◌, ◌++◌, All, IfOk, OnOk, length, map};
ghost use Rattle.filter_syntax.specs.Syntax.{ExprView, chain_of, of_patterns, pattern_of, range_of, view};
ghost use Rattle.filter_syntax.specs.Syntax.{view_members, view_more, view_range, view_set_pattern};
ghost use Rattle.filter_syntax.specs.SyntaxCommands.{commands_of, parts_of, view_command, view_label, view_part};
ghost use Rattle.filter_syntax.specs.SyntaxText.{view_filter};
ghost use Rattle.filter_compiler.specs.SetOrder.{SetCounts, no_sets, past};
ghost use Rattle.filter_compiler.specs.Translation.{command_sets, commands_sets, has_labelled, label_sets, one_set};
ghost use Rattle.filter_compiler.specs.Translation.{opening_sets, parts_sets, ranges_set, sets_of};
ghost use Rattle.filter_compiler.specs.Written.{Gathers, HoldsSets, IsCounted};
ghost use Rattle.filter_compiler.specs.declared.sets.SetLists.{SetLists as TheLists};
ghost use Rattle.int_sets.specs.Holding.{range_limit};
ghost use Rattle.prefix_patterns.specs.Matching.{pattern_limit};

use crate::numbers::SetNumbers;
use filter_code::{INT_SET_LIMIT, SET_LIMIT};
use filter_syntax::{Command, Expr, Label, Members, Op, SetPattern, SetRange};
use filter_types::Typed;
use int_sets::{IntRange, IntSet, RANGE_LIMIT};
use prefix_patterns::{PATTERN_LIMIT, Pattern, PatternSet, SetFault};
use std::alloc::{AllocError, Global};
use std::marker::Model;

/// The patterns of a set that is not built yet. A contract sees it as their list.
#[derive(Drop)]
pub(crate) struct PatternList {
    patterns: Vec<Pattern>,
}

impl Model for PatternList {
    ghost use Rattle.std.specs.Prelude.{List};
    ghost use Rattle.prefix_patterns.specs.Matching.{PrefixPattern};

    ghost Value = { List PrefixPattern };

    ghost view = { λ l. l.patterns.items };
}

/// The ranges of a set that is not built yet. A contract sees it as their list.
#[derive(Drop)]
pub(crate) struct RangeList {
    ranges: Vec<IntRange>,
}

impl Model for RangeList {
    ghost use Rattle.std.specs.Prelude.{List};
    ghost use Rattle.int_sets.specs.Holding.{NumberRange};

    ghost Value = { List NumberRange };

    ghost view = { λ l. l.ranges.items };
}

/// The patterns that those of a filter mean.
fn patterns_of(alloc: Global, set: &[SetPattern]) -> Result<Vec<Pattern>, AllocError>
    ensures { IfOk result (λ patterns. patterns.items ≡ map pattern_of (map view_set_pattern set.now)) }
{
    let mut patterns = Vec::new(alloc);
    for item in set {
        patterns.push(item.pattern())?;
    }
    Ok(patterns)
}

/// The ranges that those of a filter mean.
fn ranges_of(alloc: Global, set: &[SetRange]) -> Result<Vec<IntRange>, AllocError>
    ensures { IfOk result (λ ranges. ranges.items ≡ map range_of (map view_range set.now)) }
{
    let mut ranges = Vec::new(alloc);
    for item in set {
        ranges.push(item.range())?;
    }
    Ok(ranges)
}

/// One more list: the patterns that a set of a filter means.
fn push_patterns(
    alloc: Global,
    lists: &mut Vec<PatternList>,
    set: &[SetPattern],
) -> Result<(), AllocError>
    ensures { OnOk result (lists.new.items ≡ lists.old.items ++ map pattern_of (map view_set_pattern set.now) ∷ []) }
{
    let patterns = patterns_of(alloc, set)?;
    lists.push(PatternList { patterns })?;
    Ok(())
}

/// One more list: the ranges that a set of a filter means.
fn push_ranges(
    alloc: Global,
    lists: &mut Vec<RangeList>,
    set: &[SetRange],
) -> Result<(), AllocError>
    ensures { OnOk result (lists.new.items ≡ lists.old.items ++ map range_of (map view_range set.now) ∷ []) }
{
    let ranges = ranges_of(alloc, set)?;
    lists.push(RangeList { ranges })?;
    Ok(())
}

/// The sets so far. Once one is past a limit, or memory was refused for it, they are counted and no longer kept.
#[derive(Drop)]
pub(crate) struct SetLists {
    pub alloc: Global,
    /// The patterns of each set of patterns, while they are kept.
    pub patterns: Vec<PatternList>,
    /// The ranges of each set of ints, while they are kept.
    pub ints: Vec<RangeList>,
    /// The numbers of the next sets.
    pub numbers: SetNumbers,
    /// Whether there are too many, or one of them is too large.
    pub too_many: bool,
    /// Whether they are kept.
    pub kept: bool,
}

impl SetLists {
    /// None yet.
    fn new(alloc: Global) -> SetLists
        ensures { HoldsSets result no_sets }
    {
        SetLists {
            alloc,
            patterns: Vec::new(alloc),
            ints: Vec::new(alloc),
            numbers: SetNumbers::first(),
            too_many: false,
            kept: true,
        }
    }

    /// Sets that are counted from these numbers on, and not kept.
    fn counting(alloc: Global, numbers: SetNumbers) -> SetLists
        ensures { result.numbers ≡ numbers }
    {
        SetLists {
            alloc,
            patterns: Vec::new(alloc),
            ints: Vec::new(alloc),
            numbers,
            too_many: false,
            kept: false,
        }
    }

    /// One more set of patterns.
    fn put_patterns(&mut self, set: &[SetPattern])
        ensures { Gathers self.old self.new (one_set (of_patterns (map view_set_pattern set.now))) }
    {
        let number = self.numbers.patterns;
        self.numbers = self.numbers.after_patterns();
        if usize::from(number) >= SET_LIMIT || set.len() > PATTERN_LIMIT {
            self.too_many = true;
            self.kept = false;
            return;
        }
        if self.kept && push_patterns(self.alloc, &mut self.patterns, set).is_err() {
            self.kept = false;
        }
    }

    /// One more set of ints.
    fn put_ranges(&mut self, set: &[SetRange])
        ensures { Gathers self.old self.new (ranges_set (map view_range set.now)) }
    {
        let number = self.numbers.ints;
        self.numbers = self.numbers.after_ints();
        if usize::from(number) >= INT_SET_LIMIT || set.len() > RANGE_LIMIT {
            self.too_many = true;
            self.kept = false;
            return;
        }
        if self.kept && push_ranges(self.alloc, &mut self.ints, set).is_err() {
            self.kept = false;
        }
    }
}

/// Puts a set of a filter.
fn gather_members(members: &Members, lists: &mut SetLists)
    ensures { Gathers lists.old lists.new (one_set (view_members members.now)) }
{
    match members {
        Members::Patterns(patterns) => lists.put_patterns(patterns),
        Members::Ranges(ranges) => lists.put_ranges(ranges),
    }
}

/// Puts the set of a label.
fn gather_label(label: &Label, lists: &mut SetLists)
    ensures { Gathers lists.old lists.new (label_sets (view_label label.now)) }
{
    match label {
        Label::Ranges(ranges) => lists.put_ranges(ranges),
        Label::Else(_) => {}
    }
}

/// Puts the empty set of a `case` in which no part has a label of ranges.
fn gather_opening(labelled: bool, lists: &mut SetLists)
    ensures { Gathers lists.old lists.new (opening_sets labelled) }
{
    if !labelled {
        lists.put_ranges(&[]);
    }
}

/// Puts the sets of the operands after a first one.
#[cycle(gathering)]
fn gather_chain(more: &[(usize, Op, Expr)], lists: &mut SetLists)
    ensures { (before : TheLists) (first : ExprView) → Gathers before lists.old (sets_of first)
        → Gathers before lists.new (sets_of (chain_of first (view_more more.now))) }
{
    for (_, _, right) in more {
        gather(right, lists);
    }
}

/// Puts the sets of two operands.
#[cycle(gathering)]
fn gather_binary(parts: &(Expr, usize, Op, Expr), lists: &mut SetLists)
    ensures { Gathers lists.old lists.new (sets_of (ExprView.binary parts.now.2 (view parts.now.0) (view parts.now.3))) }
{
    let (left, _, _, right) = parts;
    gather(left, lists);
    gather(right, lists);
}

/// Puts the sets of an expression.
#[cycle(gathering)]
fn gather(expr: &Expr, lists: &mut SetLists)
    ensures { Gathers lists.old lists.new (sets_of (view expr.now)) }
{
    match expr {
        Expr::Group(_, inner) => gather(inner, lists),
        Expr::Not(_, inner) => gather(inner, lists),
        Expr::Binary(parts) => gather_binary(parts, lists),
        Expr::GroupedBinary(_, parts) => gather_binary(parts, lists),
        Expr::Chain(first, more) => {
            gather(first, lists);
            gather_chain(more, lists);
        }
        Expr::Member(_, left, set) => {
            gather(left, lists);
            gather_members(&set.members, lists);
        }
        Expr::Suffixed(inner, _) => gather(inner, lists),
        _ => {}
    }
}

/// Whether a part of a `case` has a label of ranges.
pub(crate) fn has_labelled(parts: &[(Label, Vec<Command>)]) -> bool
    ensures { result ≡ has_labelled (parts_of (map view_part parts.now)) }
{
    for (label, _) in parts {
        match label {
            Label::Ranges(_) => return true,
            Label::Else(_) => {}
        }
    }
    false
}

/// Puts the sets of commands, one after another.
#[cycle(gathering_commands)]
fn gather_commands(commands: &[Command], lists: &mut SetLists)
    ensures { Gathers lists.old lists.new (commands_sets (commands_of (map view_command commands.now))) }
{
    for command in commands {
        gather_command(command, lists);
    }
}

/// Puts the sets of a `case` after those of its argument: of its labels and of the commands after them.
#[cycle(gathering_commands)]
fn gather_parts(parts: &[(Label, Vec<Command>)], lists: &mut SetLists)
    ensures { Gathers lists.old lists.new (parts_sets (parts_of (map view_part parts.now))) }
{
    for (label, commands) in parts {
        gather_label(label, lists);
        gather_commands(commands, lists);
    }
}

/// Puts the sets of a command.
#[cycle(gathering_commands)]
fn gather_command(command: &Command, lists: &mut SetLists)
    ensures { Gathers lists.old lists.new (command_sets (view_command command.now)) }
{
    match command {
        Command::Block(_, body) => gather_commands(body, lists),
        Command::If(_, test, chosen, other) => {
            gather(test, lists);
            gather_command(chosen, lists);
            if let Some(other) = other {
                gather_command(other, lists);
            }
        }
        Command::Case(_, argument, parts) => {
            gather(argument, lists);
            gather_opening(has_labelled(parts), lists);
            gather_parts(parts, lists);
        }
        Command::Assign(_, _, value) => gather(value, lists),
        _ => {}
    }
}

/// The numbers after the sets of an expression.
pub(crate) fn after_expr(alloc: Global, expr: &Expr, numbers: SetNumbers) -> SetNumbers
    ensures { (n : SetCounts) → IsCounted n numbers → IsCounted (past n (sets_of (view expr.now))) result }
{
    let mut lists = SetLists::counting(alloc, numbers);
    gather(expr, &mut lists);
    lists.numbers
}

/// The numbers after the sets of commands.
pub(crate) fn after_commands(alloc: Global, commands: &[Command], numbers: SetNumbers) -> SetNumbers
    ensures { (n : SetCounts) → IsCounted n numbers → IsCounted (past n (commands_sets (commands_of (map view_command commands.now)))) result }
{
    let mut lists = SetLists::counting(alloc, numbers);
    gather_commands(commands, &mut lists);
    lists.numbers
}

/// The numbers after the sets of parts of a `case`.
pub(crate) fn after_parts(
    alloc: Global,
    parts: &[(Label, Vec<Command>)],
    numbers: SetNumbers,
) -> SetNumbers
    ensures { (n : SetCounts) → IsCounted n numbers → IsCounted (past n (parts_sets (parts_of (map view_part parts.now)))) result }
{
    let mut lists = SetLists::counting(alloc, numbers);
    gather_parts(parts, &mut lists);
    lists.numbers
}

/// The sets of a filter.
pub(crate) fn sets_in(alloc: Global, typed: &Typed) -> SetLists
    ensures { HoldsSets result (commands_sets (view_filter typed.now).body) }
{
    let mut lists = SetLists::new(alloc);
    gather_commands(typed.filter().body(), &mut lists);
    lists
}

/// The set of these patterns, which are not too many.
fn set_of(alloc: Global, list: &PatternList) -> Result<PatternSet, AllocError>
    requires { length list.now ≤ pattern_limit }
    ensures { IfOk result (λ set. set ≡ list.now) }
{
    match PatternSet::build(alloc, &list.patterns) {
        Ok(set) => Ok(set),
        Err(SetFault::Memory) => Err(AllocError),
        Err(SetFault::TooManyPatterns) => unreachable!(),
    }
}

/// The sets of these patterns, none of which are too many.
pub(crate) fn build_sets(
    alloc: Global,
    lists: &[PatternList],
) -> Result<Vec<PatternSet>, AllocError>
    requires { All (λ list. length list ≤ pattern_limit) lists.now }
    ensures { IfOk result (λ sets. sets.items ≡ lists.now) }
{
    let mut sets = Vec::new(alloc);
    for list in lists {
        sets.push(set_of(alloc, list)?)?;
    }
    Ok(sets)
}

/// The set of these ranges, which are not too many.
fn int_set_of(alloc: Global, list: &RangeList) -> Result<IntSet, AllocError>
    requires { length list.now ≤ range_limit }
    ensures { IfOk result (λ set. set ≡ list.now) }
{
    match IntSet::build(alloc, &list.ranges) {
        Ok(set) => Ok(set),
        Err(int_sets::SetFault::Memory) => Err(AllocError),
        Err(int_sets::SetFault::TooManyRanges) => unreachable!(),
    }
}

/// The sets of these ranges, none of which are too many.
pub(crate) fn build_int_sets(alloc: Global, lists: &[RangeList]) -> Result<Vec<IntSet>, AllocError>
    requires { All (λ list. length list ≤ range_limit) lists.now }
    ensures { IfOk result (λ sets. sets.items ≡ lists.now) }
{
    let mut sets = Vec::new(alloc);
    for list in lists {
        sets.push(int_set_of(alloc, list)?)?;
    }
    Ok(sets)
}
