//! What a command says of what it has read.
//!
//! **A command on whole texts is a function from what was read to a `Report`**, pure but for memory: its contract says which report it makes. Whoever
//! calls it, the program or another one, writes `out`, then `err`, and ends with `status`. So how a fault may cut what is written is said once, where a
//! report is written, and of no command.

use std::alloc::AllocError;

/// What a command writes, what it tells people, and its exit status. A contract sees it as a `ReportView`.
#[derive(Drop)]
pub struct Report {
    /// What stands on standard output.
    pub out: Vec<u8>,
    /// What stands on standard error.
    pub err: Vec<u8>,
    /// The exit status.
    pub status: u8,
}

impl Report {
    ghost use Rattle.std.specs.Prelude.{◌≡◌, IfOk};
    ghost use Rattle.filter_reports.specs.Reports.{followed_by, report_of};

    /// A report and what another one says behind it. The exit status is that of the first.
    pub fn followed_by(self, later: &Report) -> Result<Report, AllocError>
        ensures { IfOk result (λ both. report_of both ≡ followed_by (report_of self) (report_of later.now)) }
    {
        let Report {
            mut out,
            mut err,
            status,
        } = self;
        out.extend_from_slice(later.out.as_slice())?;
        err.extend_from_slice(later.err.as_slice())?;
        Ok(Report { out, err, status })
    }
}
