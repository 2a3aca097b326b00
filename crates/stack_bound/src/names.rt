//! What the global names of a text mean.
ghost use Rattle.std.specs.Prelude.{◌≡◌};
ghost use Rattle.obj_link.specs.Prelude.{program};
ghost use Rattle.stack_bound.specs.Bounds.{names_in};

use il_ast::Target;
use obj_link::Linked;

/// What the global names of a text mean, by its number.
pub(crate) fn names_in<'a>(linked: &'a Linked<'_>, text: usize) -> &'a [Target]
    ensures { result.now ≡ names_in (program linked.now) text }
{
    match linked.targets.as_slice().get(text) {
        Some(names) => names.as_slice(),
        None => &[],
    }
}
