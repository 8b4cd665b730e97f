ghost use Rattle.std.specs.Prelude.{◌≡◌};
ghost use Rattle.filter_code.specs.Outcomes.{fault_code};

use std::fmt;

/// What went wrong in a run.
#[derive(Clone, Copy, PartialEq, Eq)]
pub enum FaultKind {
    /// K1: the stack has too few operands.
    MissingOperand,
    /// K2: an operand has the wrong kind.
    WrongKind,
    /// K3: a division by zero.
    ZeroDivisor,
    /// K4: there is no instruction at the index.
    OutsideCode,
    /// K5: the stack would hold more than its limit.
    FullStack,
    /// K6: the metric would go below the one received.
    LowerMetric,
    /// K7: there is no such local variable or set.
    UnknownName,
}

/// How a run ends.
#[derive(Clone, Copy, PartialEq, Eq)]
pub enum Outcome {
    /// The route is accepted with this metric.
    Accept(u32),
    /// The route is rejected.
    Reject,
    /// The run went wrong, at the instruction with this index.
    Fault(FaultKind, usize),
}

/// How a run ends, and the number of its steps.
#[derive(Clone, Copy, PartialEq, Eq)]
pub struct Counted {
    /// How the run ends.
    pub outcome: Outcome,
    /// The number of its steps; the one that ends it counts.
    pub steps: u32,
}

impl FaultKind {
    /// The fault's code, `K1` to `K7`.
    pub fn code(self) -> &'static str
        ensures { result.now ≡ fault_code self }
    {
        match self {
            FaultKind::MissingOperand => "K1",
            FaultKind::WrongKind => "K2",
            FaultKind::ZeroDivisor => "K3",
            FaultKind::OutsideCode => "K4",
            FaultKind::FullStack => "K5",
            FaultKind::LowerMetric => "K6",
            FaultKind::UnknownName => "K7",
        }
    }
}

impl fmt::Display for FaultKind {
    fn fmt<W: fmt::Write>(&self, f: &mut fmt::Formatter<W>) -> fmt::Result {
        f.write_str(match self {
            FaultKind::MissingOperand => "too few operands on the stack",
            FaultKind::WrongKind => "an operand of the wrong kind",
            FaultKind::ZeroDivisor => "a division by zero",
            FaultKind::OutsideCode => "no instruction at this index",
            FaultKind::FullStack => "more than 32 values on the stack",
            FaultKind::LowerMetric => "a metric below the one received",
            FaultKind::UnknownName => "no such local variable or set",
        })
    }
}
