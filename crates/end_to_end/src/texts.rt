//! Texts that a rule makes: programs too long to be written down or one beside a limit ([`made`]), and random programs, all of which have a meaning ([`random_text`]), some
//! of many small functions ([`small_functions`]).

mod branches;
pub mod made;
mod random_body;
pub(crate) mod random_text;
pub(crate) mod small_functions;
