//! The search for the instructions that are reached on no route, and for the conditions that are always true or always false.
ghost use Rattle.std.specs.Prelude.{◌≡◌, ◌+◌, ◌<◌, ◌≤◌, ◌⊎◌, All, IfOk, IsTrue, OnOk, Some, length, map, true, vec_len};
ghost use Rattle.filter_code.specs.Limits.{largest_size, smallest_size};
ghost use Rattle.filter_code.specs.RouteView.{RouteView};
ghost use Rattle.filter_diff.specs.Classes.{IsOf, IsOfSize};
ghost use Rattle.filter_diff.specs.Marking.{AreAllMarked, AreMarked, AreSound, Extend, IsAdded, IsNoted, IsSeen, unmarked};
ghost use Rattle.filter_diff.specs.Parts.{IsEnough, IsIn};
ghost use Rattle.filter_diff.specs.Reaching.{IsReach, NeverFaults, NeverFaultsOn};
ghost use Rattle.filter_diff.specs.Searches.{IsLeft, IsWhole, most_tried, most_tried_of};
ghost use Rattle.filter_diff.specs.declared.extent.Extent.TheVariants as extent;
ghost use Rattle.filter_diff.specs.Exploring.{AreExplored};

use crate::class::Class;
use crate::comparison::all_classes;
use crate::exploring::{is_explored, mark_explored};
use crate::extent::{Extent, extent_of};
use crate::mark::{Mark, Reach, mark_of, mark_seen};
use crate::search::split;
use crate::slots::Slots;
use crate::symbol::SymbolicValue;
use crate::trials::carry_out;
use crate::turn::Turn;
use filter_code::{Code, Instr, Route, Running, Stack};
use std::alloc::{AllocError, Global};

/// Adds to the mark of a place.
fn add(mark: Mark, place: usize, marks: &mut [Mark])
    requires { place < length marks.old }
    ensures { IsAdded mark place marks.old marks.new }
{
    marks[place] = marks[place].or(mark);
}

/// Marks what runs show of the instruction that they come to with a stack. Whether that could be said. The stack stays as it is.
fn note(instr: &Instr, place: usize, stack: &mut Stack<SymbolicValue>, marks: &mut [Mark]) -> bool
    requires { place < length marks.old }
    ensures { IsNoted instr.now place stack.old stack.new marks.old marks.new result }
{
    match mark_of(instr, stack) {
        Some(mark) => {
            add(mark, place, marks);
            true
        }
        None => false,
    }
}

/// Marks what the runs on all routes of a class come to, up to a place from which on all is marked already.
fn mark_run(code: &Code, class: &Class, explored: &[bool], marks: &mut [Mark]) -> Extent
    requires real { IsOfSize class.now.size class.now }
    requires long { length marks.old ≡ length code.now.instrs }
    requires explored { AreExplored code.now marks.old explored.now }
    ensures marked { AreMarked code.now class.now marks.new result }
    ensures more { Extend marks.old marks.new }
    ensures sound { AreSound code.now class.now.size marks.old → AreSound code.now class.now.size marks.new }
{
    let instrs = code.instrs();
    let mut stack = Stack::new();
    let mut locals = Slots::new(code.locals());
    let mut metric = class.metric;
    let mut pc = 0;
    while let Some(instr) = instrs.get(pc) {
        if is_explored(explored, pc) {
            return Extent::Whole;
        }
        if !note(instr, pc, &mut stack, marks) {
            return Extent::AsksBits;
        }
        match carry_out(
            instr,
            code,
            class,
            &mut stack,
            &mut locals,
            &mut metric,
            &mut pc,
        ) {
            Turn::On => pc += 1,
            turn => return extent_of(turn),
        }
    }
    Extent::AsksBits
}

/// Marks what a run shows of the instruction that it comes to. Whether it has the operands of the instruction.
fn note_seen(instr: &Instr, running: &Running, marks: &mut [Mark]) -> bool
    requires { running.now.pc < length marks.old }
    ensures { IsSeen instr.now running.now marks.old marks.new result }
{
    match mark_seen(instr, running.top(), running.below_top()) {
        Some(mark) => {
            add(mark, running.place(), marks);
            true
        }
        None => false,
    }
}

/// Marks what the run on a route comes to. Whether that was all, as it is where the run does not end with a fault.
fn mark_route(code: &Code, route: &Route, marks: &mut [Mark]) -> bool
    requires is_in { IsIn route.now.size route.now }
    requires long { length marks.old ≡ length code.now.instrs }
    ensures marked { IsTrue result → AreAllMarked code.now marks.new route.now }
    ensures more { Extend marks.old marks.new }
    ensures sound { AreSound code.now route.now.size marks.old → AreSound code.now route.now.size marks.new }
    ensures decided { NeverFaultsOn code.now route.now → result ≡ true }
{
    let instrs = code.instrs();
    let mut running = Running::new(code, route);
    while let Some(instr) = instrs.get(running.place()) {
        if !note_seen(instr, &running, marks) {
            return false;
        }
        match running.step(code, route) {
            Some(_) => return true,
            None => {}
        }
    }
    false
}

/// Marks what the run comes to on the one route whose bits and whose metric are known.
fn mark_one(code: &Code, class: &Class, metric: u32, marks: &mut [Mark]) -> Extent
    requires small { class.now.size ≤ 250 }
    requires real { IsOfSize class.now.size class.now }
    requires known { class.now.metric ≡ Some metric }
    requires whole { length class.now.known ≡ class.now.len }
    requires long { length marks.old ≡ length code.now.instrs }
    ensures marked { AreMarked code.now class.now marks.new result }
    ensures more { Extend marks.old marks.new }
    ensures sound { AreSound code.now class.now.size marks.old → AreSound code.now class.now.size marks.new }
    ensures decided { smallest_size ≤ class.now.size → NeverFaults code.now class.now.size → result ≡ extent.Whole }
{
    match Route::new(class.known, metric, class.size) {
        Some(route) => {
            if mark_route(code, &route, marks) {
                Extent::Whole
            } else {
                Extent::AsksBits
            }
        }
        None => Extent::AsksBits,
    }
}

/// Marks what the runs on all routes of a class come to, whether all is known of its routes or not.
fn mark_class(code: &Code, class: &Class, explored: &[bool], marks: &mut [Mark]) -> Extent
    requires small { class.now.size ≤ 250 }
    requires real { IsOfSize class.now.size class.now }
    requires long { length marks.old ≡ length code.now.instrs }
    requires explored { AreExplored code.now marks.old explored.now }
    ensures marked { AreMarked code.now class.now marks.new result }
    ensures more { Extend marks.old marks.new }
    ensures sound { AreSound code.now class.now.size marks.old → AreSound code.now class.now.size marks.new }
    ensures decided { smallest_size ≤ class.now.size → NeverFaults code.now class.now.size → IsWhole class.now → result ≡ extent.Whole }
{
    match class.metric {
        Some(metric) if class.known.len() == class.len => mark_one(code, class, metric, marks),
        _ => mark_run(code, class, explored, marks),
    }
}

/// Deals with a class: what the runs on its routes come to is marked, or they are in classes that are appended. Whether it could be
/// dealt with.
fn visit(
    code: &Code,
    class: &Class,
    explored: &[bool],
    marks: &mut [Mark],
    todo: &mut Vec<Class>,
) -> Result<bool, AllocError>
    requires small { class.now.size ≤ 250 }
    requires real { IsOfSize class.now.size class.now }
    requires long { length marks.old ≡ length code.now.instrs }
    requires explored { AreExplored code.now marks.old explored.now }
    ensures covered { IfOk result (λ done. IsTrue done → (route : RouteView) → IsIn class.now.size route → IsOf class.now route
        → AreAllMarked code.now marks.new route ⊎ IsLeft route todo.new.items) }
    ensures kept { OnOk result ((route : RouteView) → IsLeft route todo.old.items → IsLeft route todo.new.items) }
    ensures real { OnOk result (All (IsOfSize class.now.size) todo.old.items → All (IsOfSize class.now.size) todo.new.items) }
    ensures more { Extend marks.old marks.new }
    ensures sound { AreSound code.now class.now.size marks.old → AreSound code.now class.now.size marks.new }
    ensures few { OnOk result (vec_len todo.new ≤ vec_len todo.old + 253) }
    ensures tried { IfOk result (λ done. IsTrue done → most_tried_of class.now.size todo.new.items + 1
        ≤ most_tried_of class.now.size todo.old.items + most_tried class.now.size class.now) }
    ensures decided { IfOk result (λ done. smallest_size ≤ class.now.size → NeverFaults code.now class.now.size → done ≡ true) }
{
    match mark_class(code, class, explored, marks) {
        Extent::Whole => Ok(true),
        Extent::AsksBits => {
            let is_split = split(class, false, todo)?;
            Ok(is_split)
        }
        Extent::AsksMetric => {
            let is_split = split(class, true, todo)?;
            Ok(is_split)
        }
    }
}

/// Deals with a class, and finds from which places on all is marked then.
fn deal(
    code: &Code,
    class: &Class,
    marks: &mut [Mark],
    explored: &mut [bool],
    todo: &mut Vec<Class>,
) -> Result<bool, AllocError>
    requires small { class.now.size ≤ 250 }
    requires real { IsOfSize class.now.size class.now }
    requires long { length marks.old ≡ length code.now.instrs }
    requires places { length explored.old ≡ length code.now.instrs }
    requires explored { AreExplored code.now marks.old explored.old }
    ensures covered { IfOk result (λ done. IsTrue done → (route : RouteView) → IsIn class.now.size route → IsOf class.now route
        → AreAllMarked code.now marks.new route ⊎ IsLeft route todo.new.items) }
    ensures kept { OnOk result ((route : RouteView) → IsLeft route todo.old.items → IsLeft route todo.new.items) }
    ensures real { OnOk result (All (IsOfSize class.now.size) todo.old.items → All (IsOfSize class.now.size) todo.new.items) }
    ensures more { Extend marks.old marks.new }
    ensures sound { AreSound code.now class.now.size marks.old → AreSound code.now class.now.size marks.new }
    ensures explored { OnOk result (AreExplored code.now marks.new explored.new) }
    ensures few { OnOk result (vec_len todo.new ≤ vec_len todo.old + 253) }
    ensures tried { IfOk result (λ done. IsTrue done → most_tried_of class.now.size todo.new.items + 1
        ≤ most_tried_of class.now.size todo.old.items + most_tried class.now.size class.now) }
    ensures decided { IfOk result (λ done. smallest_size ≤ class.now.size → NeverFaults code.now class.now.size → done ≡ true) }
{
    let is_dealt = visit(code, class, explored, marks, todo)?;
    mark_explored(code, marks, explored);
    Ok(is_dealt)
}

/// A mark for each instruction of a code, of which it is said whether it is watched.
fn unmarked(alloc: Global, watched: &[bool]) -> Result<Vec<Mark>, AllocError>
    ensures { IfOk result (λ marks. marks.items ≡ map unmarked watched.now) }
{
    let mut marks = Vec::new(alloc);
    for is_watched in watched {
        marks.push(Mark::nothing(*is_watched))?;
    }
    Ok(marks)
}

/// Which instructions of a code are reached on routes of the domains of a size, and with which conditions; and which of the MAX that are
/// watched raise what is below. It tries at most as many classes of routes as the limit says, each by one run.
///
/// It is complete, unless the limit ends the search or the run on some route ends with a fault.
pub fn reach(
    alloc: Global,
    code: &Code,
    size: u32,
    limit: u64,
    watched: &[bool],
) -> Result<Reach, AllocError>
    requires small { size ≤ largest_size }
    requires watched { length watched.now ≡ length code.now.instrs }
    ensures found { IfOk result (IsReach code.now size watched.now) }
    ensures decided { IsEnough size limit → NeverFaults code.now size → IfOk result (λ found. found.is_complete ≡ true) }
{
    let mut marks = unmarked(alloc, watched)?;
    let mut explored = vec![in alloc; false; watched.len()]?;
    let mut todo = all_classes(alloc, size)?;
    let mut left = limit;
    while let Some(next) = todo.pop() {
        let class = Class {
            known: next.known,
            len: next.len,
            metric: next.metric,
            size,
        };
        if left == 0 {
            return Ok(Reach {
                marks,
                is_complete: false,
            });
        }
        left -= 1;
        let is_dealt = deal(code, &class, &mut marks, &mut explored, &mut todo)?;
        if !is_dealt {
            return Ok(Reach {
                marks,
                is_complete: false,
            });
        }
    }
    Ok(Reach {
        marks,
        is_complete: true,
    })
}
