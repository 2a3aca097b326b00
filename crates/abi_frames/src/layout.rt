//! The numbers of a frame.
use il_ast::Class;

/// What the code of a function needs to know of its frame: offsets in bytes from the stack pointer, and sizes in bytes.
#[derive(Clone, Copy)]
pub struct Layout {
    /// where the saved registers begin
    pub saves: u16,
    /// where the slots begin
    pub slots: u16,
    /// where the area for blocks of memory begins
    pub area: u32,
    /// the size of the frame
    pub size: u64,
    /// the class of the function's result
    pub result: Option<Class>,
    /// the label of the frame's end
    pub leave: usize,
    /// whether a block may fall into the one behind it
    pub falls: bool,
}
