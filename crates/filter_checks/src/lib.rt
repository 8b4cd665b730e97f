//! What a filter does with all routes, beside another filter, and beside what a test file says.
#![tactic(auto)]

mod comparing;
mod faults;
mod keyword;
mod laws;
mod lines;
mod part_reports;
mod place;
mod reading;
mod results;
mod tap;
mod test_file;
mod testing;

pub use comparing::diff_report;
pub use laws::{
    compared_filters_mean_the_same, comparison_is_of_filters, held_tests_are_of_filters,
    parts_are_of_filters, shown_routes_are_of_filters,
};
pub use place::path_beside;
pub use results::{end_in, head_in};
pub use test_file::{Test, TestFile, TestFileFault, read_tests};
pub use testing::{RanTest, TestReport, faulty_tests, skipped_tests, test_report};
