//! How runs end, in words.
use il_ast::End;
use rv_machine::Stop;
use std::alloc::{AllocError, Global};
use std::fmt::Display;
use test_report::report::Report;

/// How a run of the interpreter ended.
pub fn end_told(alloc: Global, end: End) -> Result<String, AllocError> {
    match end {
        End::Exit(status) => format!(in alloc; "exit {status}"),
        End::Halt => String::from_str(alloc, "halt"),
        End::Undefined => String::from_str(alloc, "undefined"),
        End::Stack => String::from_str(alloc, "stack"),
        End::Turns => String::from_str(alloc, "limit"),
    }
}

/// Whether a run of the machine ended so: it isn't a refusal of the file or of the words.
pub fn is_stop(end: &str) -> bool {
    match end {
        "halt" | "limit" | "memory" | "fault" => true,
        _ => end.starts_with("exit "),
    }
}

/// How a run of the machine ended.
pub fn stop_told(alloc: Global, stop: Stop) -> Result<String, AllocError> {
    match stop {
        Stop::Exit(status) => format!(in alloc; "exit {status}"),
        Stop::Break => String::from_str(alloc, "halt"),
        Stop::Limit => String::from_str(alloc, "limit"),
        Stop::Memory => String::from_str(alloc, "memory"),
        Stop::Fault(_, _) => String::from_str(alloc, "fault"),
    }
}

/// The checks from here on belong to the case of this title.
pub fn begin<T: Display + Drop>(report: &mut Report, title: T) -> Result<(), AllocError> {
    let title = format!(in report.alloc; "{title}")?;
    report.begin(title.as_str())
}
