//! Calls by name: those of functions that have other classes, and what results they want.
use crate::name::{class_word, name_in};
use crate::note::{Gathered, Note, make_note};
use il_ast::{Arg, Callee, Class, Dest, Func, InText, Inst, Symbol, Target, Val};
use obj_link::Linked;
use std::alloc::{AllocError, Global};
use text_maker::{TextMaker, say};

/// What a call passes, and where its result goes.
#[derive(Clone, Copy)]
pub struct Call<'a> {
    pub to: Option<Dest>,
    pub args: &'a [Arg],
}

/// The calls of a function that are undefined, since the callee has other classes.
pub fn add_wrong_calls(notes: &mut Gathered<Note>, linked: &Linked<'_>, function: &InText<&Func>) {
    let text = function.text;
    let blocks = function.item.blocks.as_slice().iter();
    for inst in blocks.flat_map(|block| block.insts.as_slice()) {
        if let Some((name, call)) = call_by_name(&inst.item) {
            let mut words = TextMaker::new(notes.alloc);
            say!(words; "{}", name_in(linked, text, name));
            let is_wrong = match target(linked, text, name) {
                Some(Target::Code(callee)) => add_difference(&mut words, linked, &call, callee),
                Some(Target::Object(_)) => {
                    words.add(" is data, and no function");
                    true
                }
                None => false,
            };
            if is_wrong {
                notes.add(make_note(text, inst.line, words));
            }
        }
    }
}

/// The name that a call names, and the rest of the call.
pub fn call_by_name(inst: &Inst) -> Option<(Symbol, Call<'_>)> {
    match inst {
        Inst::Call {
            to,
            callee: Val::Global(name),
            args,
        } => {
            let args = args.as_slice();
            Some((*name, Call { to: *to, args }))
        }
        _ => None,
    }
}

/// What a name means in a text.
pub fn target(linked: &Linked<'_>, text: usize, name: Symbol) -> Option<Target> {
    let targets = linked.targets.as_slice().get(text)?;
    targets.as_slice().get(name.number()).copied()
}

/// How many arguments a callee takes, and what it gives.
fn form(linked: &Linked<'_>, callee: Callee) -> Option<(usize, Option<Class>)> {
    match callee {
        Callee::Defined(number) => {
            let function = linked.functions.as_slice().get(number)?.item;
            Some((function.params.len(), function.result))
        }
        Callee::SystemWrite => Some((3, Some(Class::L))),
        Callee::SystemExit => Some((1, None)),
    }
}

/// The class of an argument that a callee takes.
fn taken(linked: &Linked<'_>, callee: Callee, number: usize) -> Option<Class> {
    match callee {
        Callee::Defined(function) => {
            let function = linked.functions.as_slice().get(function)?.item;
            Some(function.params.as_slice().get(number)?.class)
        }
        Callee::SystemWrite if number > 0 => Some(Class::L),
        Callee::SystemWrite | Callee::SystemExit => Some(Class::W),
    }
}

/// Says how a call differs from what the callee takes and gives. Answers whether it does.
pub fn add_difference(
    words: &mut TextMaker,
    linked: &Linked<'_>,
    call: &Call<'_>,
    callee: Callee,
) -> bool {
    let Some((count, gives)) = form(linked, callee) else {
        return false;
    };
    let given = call.args.len();
    if given != count {
        let plural = if given == 1 { "" } else { "s" };
        say!(words; " is given {given} argument{plural}, and takes {count}");
        return true;
    }
    for (number, arg) in call.args.iter().enumerate() {
        if let Some(class) = taken(linked, callee, number)
            && class != arg.class
        {
            let (given, class) = (class_word(arg.class), class_word(class));
            say!(words; " is given class {given} where it takes {class}");
            return true;
        }
    }
    match (call.to.map(|to| to.class), gives) {
        (Some(wanted), Some(class)) if class != wanted => {
            let (wanted, class) = (class_word(wanted), class_word(class));
            say!(words; " gives class {class}, and {wanted} is wanted");
        }
        (Some(_), None) => words.add(" gives no result, and one is wanted"),
        _ => return false,
    }
    true
}

/// For each function of a program whether its result is wanted: by the start, or by a call by name.
pub fn wanted(alloc: Global, linked: &Linked<'_>) -> Result<Vec<bool>, AllocError> {
    let mut wanted = vec![in alloc; false; linked.functions.len()]?;
    mark(&mut wanted, linked.main);
    for function in linked.functions.as_slice() {
        let text = function.text;
        let blocks = function.item.blocks.as_slice().iter();
        for inst in blocks.flat_map(|block| block.insts.as_slice()) {
            if let Some((name, call)) = call_by_name(&inst.item)
                && call.to.is_some()
                && let Some(Target::Code(Callee::Defined(number))) = target(linked, text, name)
            {
                mark(&mut wanted, number);
            }
        }
    }
    Ok(wanted)
}

fn mark(wanted: &mut Vec<bool>, number: usize) {
    if let Some(mark) = wanted.get_mut(number) {
        *mark = true;
    }
}
