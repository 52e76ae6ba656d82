//! What no clause says: that the rules mean what the worked examples say, and that calls succeed with ample memory. The rows
//! are tables, since each function is proved and a table isn't.
use cedar_policy_formatter::cst::parse_policies;
use cedar_policy_formatter::{Config, FormatError};
use cedar_test_rows::Part::{Once, Times};
use cedar_test_rows::{Part, ROW, Row, joined};
use std::alloc::Global;
use std::process::Abort;

mod cleaning;
mod layouts;
mod line_columns;
mod lookups;
mod marks;
mod parts;
mod readers;
mod shapes;
mod tokens;
mod trees;

// Each assertion stands in a function of its own: it is a good part of what its function costs to prove.
fn expect_text(rt: &impl Abort, got: &str, want: &str, name: &str) {
    assert_eq!(rt; got, want, "{name}");
}

fn expect_refusal(
    rt: &impl Abort,
    got: Option<FormatError>,
    want: Option<FormatError>,
    name: &str,
) {
    assert_eq!(rt; got, want, "{name}");
}

fn expect_same(rt: &impl Abort, got: Option<bool>, want: Option<bool>, name: &str) {
    assert_eq!(rt; got, want, "{name}");
}
