//! What an allocator is to do.
use crate::certificate::Certificate;
use cfg_live::Live;
use vcode::VFunc;

/// A way to allocate registers. It promises nothing.
pub trait Strategy: Drop {
    /// A certificate for this function with these live registers, or none.
    fn choose(&mut self, function: &VFunc, live: &Live) -> Option<Certificate>;
}
