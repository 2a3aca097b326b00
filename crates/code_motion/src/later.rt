//! Sums that are done behind the last line that reads what they are sums of, so that both may have one register.
mod choice;
pub mod put_off;
mod waiting;
