//! One case of a table.

/// A text, mostly a function, and the text of what a step makes of it.
#[derive(Clone, Copy)]
pub struct Case<'a> {
    pub name: &'a str,
    pub given: &'a str,
    /// what else the step takes, where it does
    pub with: &'a str,
    pub wanted: &'a str,
}

/// The case of a text: comments and an empty line, then `case NAME`, the lines that are given, `with` and what else is taken, if anything, `gives`, and the lines
/// that are wanted. Where no line is wanted, an empty one stands there.
pub fn case_of(text: &str) -> Option<Case<'_>> {
    let (_, text) = text.split_once("\ncase ")?;
    let (name, text) = text.split_once('\n')?;
    let (taken, wanted) = text.split_once("\ngives\n")?;
    let (given, with) = taken.split_once("\nwith\n").unwrap_or((taken, ""));
    Some(Case {
        name,
        given,
        with,
        wanted,
    })
}
