//! Long inputs, and exit statuses.

use super::{gives, repeated};
use spanprof_command::Status;
use std::test::Fail;

#[test]
fn exit_statuses(rt: HostRuntime) {
    spanprof_command::laws::one_report();
    for (status, number) in [
        (Status::Done, 0),
        (Status::Refused, 1),
        (Status::Usage, 2),
        (Status::Fault, 3),
    ] {
        assert!(rt; status.exit_status() == number, "{number}");
    }
}

/// At the limit, and one byte past it.
#[test]
fn long_inputs(rt: HostRuntime) -> Result<(), Fail> {
    for (length, line) in [
        (8_388_608, "error: line 1: TooLong\n"),
        (8_388_609, "error: input too long\n"),
    ] {
        let blanks = repeated(rt.alloc(), " ", length)?;
        let is_told = gives(&rt, &["spanprof"], blanks.as_str(), line, Status::Refused)?;
        assert!(rt; is_told, "{length}");
    }
    Ok(())
}
