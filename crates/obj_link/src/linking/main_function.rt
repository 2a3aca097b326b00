//! The function that a program begins with.
ghost use Rattle.std.specs.Prelude.{◌≡◌, map};
ghost use Rattle.obj_link.specs.Prelude.{shown, takes_words, gives_word, is_main, main_in};

use il_ast::{Callee, Class, Func, InText, Param, Target};

/// The number of the function that the name `main` means, where it is of one of the two forms.
pub fn main_in(functions: &[InText<&Func>], named: Option<Target>) -> Option<usize>
    ensures { result ≡ main_in (map shown functions.now) named }
{
    match named {
        Some(Target::Code(Callee::Defined(number))) => match functions.get(number) {
            Some(function) => if is_main(function.item) {
                Some(number)
            } else {
                None
            },
            None => None,
        },
        _ => None,
    }
}

/// Whether a function is `w ()` or `w (w, l)`.
fn is_main(function: &Func) -> bool
    ensures { result ≡ is_main function.now }
{
    gives_word(function.result) && takes_words(function.params.as_slice())
}

fn gives_word(result_class: Option<Class>) -> bool
    ensures { result ≡ gives_word result_class }
{
    match result_class {
        Some(Class::W) => true,
        Some(Class::L) | None => false,
    }
}

fn takes_words(params: &[Param]) -> bool
    ensures { result ≡ takes_words params.now }
{
    match params {
        [] => true,
        [count, list] => count.class == Class::W && list.class == Class::L,
        _ => false,
    }
}
