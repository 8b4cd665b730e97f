//! The code that the routes of `eval` go through.
ghost use Rattle.std.specs.Prelude.{◌≡◌, ◌<◌, ◌≤◌, ◌++◌, IfSome, OnErr, OnOk, is_some, not, None, Some};
ghost use Rattle.std.specs.Io.{StartsWith};
ghost use Rattle.filter_code.specs.Machine.{outcome_of};
ghost use Rattle.filter_machine.specs.Verdicts.{announced, outcome_said};
ghost use Rattle.route_answers.specs.Eval.{verdict};
ghost use Rattle.route_answers.specs.Judges.{code_at};
ghost use Rattle.route_answers.specs.Sizes.{ReadsFirst, clipped};

use crate::all_sizes::ForAllSizes;
use crate::verdict_line::{push_accept, push_verdict};
use filter_code::{Code, Route, run_checked};
use filter_machine::{Verdict, run};
use filter_verifier::{Verified, verify};
use prefix_patterns::Prefix;
use std::alloc::{AllocError, Global};
use std::marker::Model;
use std::mem::replace;

/// How far the code of a run of `eval` is.
#[derive(Drop)]
enum CodeStage {
    /// It has not come.
    Awaited,
    /// It is to be verified when the first route comes.
    Untried(Code),
    /// It is not verified.
    Checked(Code),
    /// It is verified for the size of the first route.
    OneSize(Verified),
    /// It is verified for all sizes.
    AllSizes(ForAllSizes),
}

/// The code that judges the routes, once it has come.
///
/// At the first route it is verified for all sizes, or else for the size of that one. Where the verifier accepts it, routes of these
/// sizes go through the machine that tests nothing; all others go through the one that tests each step. A contract sees the code
/// alone, since both machines say the same of a route.
#[derive(Drop)]
pub(crate) struct Judge {
    stage: CodeStage,
}

impl Model for Judge {
    ghost use Rattle.std.specs.Prelude.{Option};
    ghost use Rattle.filter_code.specs.CodeView.{CodeView};
    ghost use Rattle.route_answers.specs.Judges.{code_at};

    ghost Value = { Option CodeView };

    ghost view = { λ judge. code_at judge.stage };
}

impl Judge {
    /// A judge whose code has not come.
    pub(crate) fn awaiting() -> Judge
        ensures { result ≡ None }
    {
        Judge {
            stage: CodeStage::Awaited,
        }
    }

    /// A judge with this code.
    pub(crate) fn of(code: Code) -> Judge
        ensures { result ≡ Some code }
    {
        // One instruction ends before a call of the other machine would have begun.
        let stage = if code.instrs().len() > 1 {
            CodeStage::Untried(code)
        } else {
            CodeStage::Checked(code)
        };
        Judge { stage }
    }

    /// Whether the code has not come.
    #[inline(always)]
    pub(crate) fn is_awaiting(&self) -> bool
        ensures { is_some self.now ≡ not result }
    {
        matches!(&self.stage, CodeStage::Awaited)
    }

    /// Puts the line of what the code says of a route at the end of `out`; nothing if the code has not come.
    ///
    /// What most codes come to is done here, and all else apart, since a function clears the room for its values whenever it is called.
    #[inline(always)]
    pub(crate) fn answer(
        &mut self,
        alloc: Global,
        route: &Route,
        out: &mut Vec<u8>,
    ) -> Result<(), AllocError>
        ensures ok { OnOk result (IfSome self.old (λ program. out.new.items ≡ out.old.items ++ verdict (outcome_of program route.now))) }
        ensures err { OnErr result (StartsWith out.new.items out.old.items) }
        ensures kept { self.new ≡ self.old }
    {
        if let CodeStage::AllSizes(all) = &self.stage {
            return push_for_all_sizes(out, all, route);
        }
        // Who takes a route by its address is given a copy, so that the route above is never written to memory.
        let copy = *route;
        match &self.stage {
            CodeStage::Checked(code) => push_checked(out, code, &copy),
            CodeStage::OneSize(verified) => push_for_one_size(out, verified, &copy),
            _ => self.answer_rarely(alloc, &copy, out),
        }
    }

    /// Does what `answer` does, also where the code is still to be verified.
    #[inline(never)]
    pub(crate) fn answer_rarely(
        &mut self,
        alloc: Global,
        route: &Route,
        out: &mut Vec<u8>,
    ) -> Result<(), AllocError>
        ensures ok { OnOk result (IfSome self.old (λ program. out.new.items ≡ out.old.items ++ verdict (outcome_of program route.now))) }
        ensures err { OnErr result (StartsWith out.new.items out.old.items) }
        ensures kept { self.new ≡ self.old }
    {
        if matches!(&self.stage, CodeStage::Untried(_)) {
            self.verify_stage(alloc, route.size());
        }
        match &self.stage {
            CodeStage::Awaited => Ok(()),
            CodeStage::Untried(code) | CodeStage::Checked(code) => push_checked(out, code, route),
            CodeStage::OneSize(verified) => push_for_one_size(out, verified, route),
            CodeStage::AllSizes(all) => push_for_all_sizes(out, all, route),
        }
    }

    /// Verifies the code, if that is still to be tried.
    #[cold]
    #[inline(never)]
    fn verify_stage(&mut self, alloc: Global, size: u32)
        ensures { self.new ≡ self.old }
    {
        self.stage = verified_stage(alloc, replace(&mut self.stage, CodeStage::Awaited), size);
    }
}

/// The same code, verified for domains of all sizes if it is accepted so, and otherwise for those of the given size if the verifier
/// accepts that.
fn verified_stage(alloc: Global, stage: CodeStage, size: u32) -> CodeStage
    ensures { code_at result ≡ code_at stage }
{
    match stage {
        CodeStage::Untried(code) => match ForAllSizes::verify(alloc, code) {
            Ok(all) => CodeStage::AllSizes(all),
            Err(code) => match verify(alloc, code, size) {
                Ok(verified) => CodeStage::OneSize(verified),
                Err((code, _)) => CodeStage::Checked(code),
            },
        },
        other => other,
    }
}

/// Puts the line of what code that is verified for one size says of a route at the end of `out`.
#[inline(always)]
fn push_for_one_size(
    out: &mut Vec<u8>,
    verified: &Verified,
    route: &Route,
) -> Result<(), AllocError>
    ensures ok { OnOk result (out.new.items ≡ out.old.items ++ verdict (outcome_of verified.now.program route.now)) }
    ensures err { OnErr result (StartsWith out.new.items out.old.items) }
{
    if verified.size() != route.size() {
        return push_checked(out, verified.code(), route);
    }
    push_verified(out, verified, route.net(), route.metric(), route.size())
}

/// Puts the line of what code that is verified for all sizes says of a route at the end of `out`.
#[inline(always)]
fn push_for_all_sizes(out: &mut Vec<u8>, all: &ForAllSizes, route: &Route) -> Result<(), AllocError>
    ensures ok { OnOk result (out.new.items ≡ out.old.items ++ verdict (outcome_of all.now route.now)) }
    ensures err { OnErr result (StartsWith out.new.items out.old.items) }
{
    push_verified(
        out,
        all.verified(),
        route.net(),
        route.metric(),
        route.size(),
    )
}

/// Puts the line of what code that is not verified says of a route at the end of `out`.
///
/// It stands apart, so that what puts a line is in line here: in a function as long as the one that reads a line, the compiler calls it.
#[inline(never)]
fn push_checked(out: &mut Vec<u8>, code: &Code, route: &Route) -> Result<(), AllocError>
    ensures ok { OnOk result (out.new.items ≡ out.old.items ++ verdict (outcome_of code.now route.now)) }
    ensures err { OnErr result (StartsWith out.new.items out.old.items) }
{
    push_verdict(out, run_checked(code, route))
}

/// Puts the line of what verified code says of a route at the end of `out`: in a domain of the size that it is verified for, or in a
/// smaller one where it reads the metric before it sets it.
///
/// It stands apart, so that nothing is between the machine and its line.
#[inline(never)]
fn push_verified(
    out: &mut Vec<u8>,
    verified: &Verified,
    net: Prefix,
    metric: u32,
    size: u32,
) -> Result<(), AllocError>
    requires reachable { metric ≤ size }
    requires within { size ≤ verified.now.size }
    requires smaller { size < verified.now.size → ReadsFirst verified.now.program.instrs }
    ensures ok { OnOk result (out.new.items ≡ out.old.items
        ++ verdict (outcome_of verified.now.program (announced net metric size))) }
    ensures err { OnErr result (StartsWith out.new.items out.old.items) }
{
    let ran = run(verified, &net, metric);
    push_said(out, ran.verdict, size)
}

/// Puts the line of the verdict of verified code at the end of `out`, in a domain of a size.
#[inline(always)]
fn push_said(out: &mut Vec<u8>, said: Verdict, size: u32) -> Result<(), AllocError>
    ensures ok { OnOk result (out.new.items ≡ out.old.items ++ verdict (clipped size (outcome_said said))) }
    ensures err { OnErr result (StartsWith out.new.items out.old.items) }
{
    match said {
        Verdict::Accept(metric) => push_accept(out, metric.min(size)),
        Verdict::Reject => out.extend_from_slice(b"reject\n"),
    }
}
