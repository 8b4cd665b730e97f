//! The exit statuses of commands.
ghost use Rattle.std.specs.Prelude.{◌≡◌};
ghost use Rattle.filter_reports.specs.Reports.{status_of, status_of_found};

/// The exit status where something was refused or found.
pub const FAILED: u8 = 1;

/// The exit status where something is not known, as what was not read, and where a fault of the machine ended what a refusal ends with `FAILED`.
pub const FAULT: u8 = 3;

/// The exit status of a run with that many refused lines.
pub fn status_of(refused: u32) -> u8
    ensures { result ≡ status_of refused }
{
    if refused == 0 { 0 } else { FAILED }
}

/// The exit status by whether something was found.
pub fn status_of_found(found: bool) -> u8
    ensures { result ≡ status_of_found found }
{
    if found { FAILED } else { 0 }
}
