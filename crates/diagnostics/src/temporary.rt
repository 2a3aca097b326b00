//! What is wrong with the temporaries of a function.
use crate::name::{class_word, global, temp};
use crate::place::{Does, Step, class_of};
use il_ast::{Class, Func, Text, Val};
use text_maker::{TextMaker, say};

/// A temporary of two classes.
pub fn add_two_classes(words: &mut TextMaker, function: &Func, steps: &[Step], line: usize) {
    for step in steps.iter().filter(|step| step.line == line) {
        if let Does::Assigns(assigned) = step.does {
            let mut others = steps.iter().filter(|other| other.assigns(assigned));
            if let Some(other) = others.find(|other| other.class != step.class) {
                let name = temp(function, assigned);
                let (here, there) = (class_word(step.class), class_word(other.class));
                let at = other.line;
                say!(words; "{name} has class {here} here and class {there} at line {at}");
                return;
            }
        }
    }
}

/// An operand that doesn't fit its place, or a result of a class that its operation hasn't.
pub fn add_misfit(
    words: &mut TextMaker,
    text: &Text,
    function: &Func,
    steps: &[Step],
    line: usize,
) {
    for step in steps {
        if step.line == line && add_wrong_use(words, text, function, steps, step) {
            return;
        }
    }
    words.add("the result of this operation has class l, and not w");
}

/// Says of a value that doesn't fit its place what it is. Answers whether it doesn't.
fn add_wrong_use(
    words: &mut TextMaker,
    text: &Text,
    function: &Func,
    steps: &[Step],
    step: &Step,
) -> bool {
    let Some(value) = step.read_within() else {
        return false;
    };
    match value {
        Val::Temp(read) if step.class == Class::L && class_of(steps, read) == Some(Class::W) => {
            say!(words; "{} has class w and stands in an l place", temp(function, read));
            true
        }
        Val::Global(symbol) if step.class == Class::W => {
            say!(words; "{} is an address and stands in a w place", global(text, symbol));
            true
        }
        _ => false,
    }
}

/// A value that is returned from a function of another class, or of none.
pub fn add_wrong_return(words: &mut TextMaker, function: &Func) {
    match function.result {
        None => words.add("a value is returned by a function without a class"),
        Some(class) => {
            say!(words; "the value doesn't fit the function's class, {}", class_word(class));
        }
    }
}

/// A temporary that is used and assigned nowhere: the first such one in a line.
pub fn add_undefined(words: &mut TextMaker, function: &Func, steps: &[Step], line: usize) {
    let of_line = steps.iter().filter(|step| step.line == line);
    let mut read = of_line.filter_map(|step| step.temp_read());
    match read.find(|temp| class_of(steps, *temp).is_none()) {
        Some(used) => say!(words; "{}", temp(function, used)),
        None => words.add("a temporary"),
    }
    words.add(" is used, and assigned nowhere in the function");
}
