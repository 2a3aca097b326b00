//! Texts that are linked: between them stand lines with `next`.
use il_reader::read::read;
use il_types::check::check;
use obj_link::linking::resolve::resolve;
use obj_link::{LinkError, Linked};
use std::alloc::{AllocError, Global};
use std::str;
use text_maker::{TextMaker, say};

fn refusal(alloc: Global, error: LinkError<'_>) -> Result<String, AllocError> {
    match error {
        LinkError::UnknownName(name) | LinkError::ExportedTwice(name) => {
            let name = str::from_utf8(name).unwrap_or("bytes");
            format!(in alloc; "{error} {name}")
        }
        _ => format!(in alloc; "{error}"),
    }
}

fn program(alloc: Global, linked: &Linked<'_>) -> Result<String, AllocError> {
    let mut out = TextMaker::new(alloc);
    let functions = linked.functions.len();
    let objects = linked.objects.len();
    say!(out; "{functions} functions, {objects} objects, main is {}\n", linked.main);
    for targets in linked.targets.as_slice() {
        say!(out; "{:?}\n", targets.as_slice());
    }
    out.finish()
}

/// The program of texts and what the names of each mean, or why they are none.
pub fn linked(alloc: Global, texts: &str) -> Option<String> {
    let mut all = Vec::new(alloc);
    for text in texts.split("\nnext\n").filter(|text| !text.is_empty()) {
        let tree = read(alloc, text.as_bytes()).ok()?;
        all.push(check(alloc, tree).ok()?).ok()?;
    }
    match resolve(alloc, all.as_slice()) {
        Ok(linked) => program(alloc, &linked).ok(),
        Err(error) => refusal(alloc, error).ok(),
    }
}
