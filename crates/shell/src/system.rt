//! The files and the streams of the system, as a disk and as sinks.

pub mod host_files;
pub mod stream;
