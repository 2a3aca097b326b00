//! A mention of a temporary.
use il_ast::{Size, Temp};

/// What a temporary is where a text mentions it.
#[derive(Clone, Copy)]
pub enum Role {
    /// the destination of an `alloc`
    Made,
    /// the address of a load or a store of so many bytes
    Accessed(Size),
    /// anything else
    Used,
}

/// A mention of a temporary.
#[derive(Clone, Copy)]
pub struct Mention {
    pub temp: Temp,
    pub role: Role,
}
