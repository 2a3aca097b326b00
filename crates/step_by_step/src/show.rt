//! Trees as text: each item on a line, with the number of its line, and names by number.
use il_ast::{
    Block, DataDef, Definition, Dest, Field, Func, Inst, Item, Jump, Lined, Name, Text, Val,
};
use std::alloc::{AllocError, Global};
use std::fmt;
use text_maker::{TextMaker, say};

/// A text, with its numbers of lines and bytes and the names of its globals.
pub fn show(alloc: Global, text: &Text) -> Result<String, AllocError> {
    let mut out = TextMaker::new(alloc);
    say!(out; "{} lines {} bytes", text.lines, text.bytes);
    show_names(&mut out, '$', text.symbols.as_slice());
    for definition in text.definitions.as_slice() {
        match definition {
            Definition::Function(function) => show_function(&mut out, function),
            Definition::Object(object) => show_object(&mut out, object),
        }
    }
    out.finish()
}

/// A function, with its number of line and the names of its temporaries and blocks.
pub fn show_alone(alloc: Global, function: &Func) -> Result<String, AllocError> {
    let mut out = TextMaker::new(alloc);
    show_function(&mut out, function);
    out.finish()
}

fn show_names(out: &mut TextMaker, sign: char, names: &[Name]) {
    for name in names {
        say!(out; " {sign}");
        show_bytes(out, name.as_slice());
    }
    out.add("\n");
}

fn show_bytes(out: &mut TextMaker, bytes: &[u8]) {
    for byte in bytes {
        match byte {
            b'\n' => out.add("\\n"),
            other => say!(out; "{}", char::from(*other)),
        }
    }
}

/// A value, with its name by number.
#[derive(Clone, Copy)]
struct Shown(Val);

impl fmt::Display for Shown {
    fn fmt<W: fmt::Write>(&self, f: &mut fmt::Formatter<W>) -> fmt::Result {
        let Shown(value) = *self;
        match value {
            Val::Int(number) => write!(f, "{number}"),
            Val::Temp(temp) => write!(f, "%{}", temp.number()),
            Val::Global(symbol) => write!(f, "${}", symbol.number()),
        }
    }
}

fn show_dest(out: &mut TextMaker, to: Dest) {
    say!(out; " %{} {:?}", to.temp.number(), to.class);
}

fn show_function(out: &mut TextMaker, function: &Func) {
    let name = function.name.number();
    say!(out; "{} function ${name} {:?}", function.line, function.exported);
    if let Some(class) = function.result {
        say!(out; " {class:?}");
    }
    for param in function.params.as_slice() {
        say!(out; " ({} {:?} %{})", param.line, param.class, param.temp.number());
    }
    show_names(out, '%', function.temps.as_slice());
    show_names(out, '@', function.labels.as_slice());
    for block in function.blocks.as_slice() {
        show_block(out, block);
    }
}

fn show_block(out: &mut TextMaker, block: &Block) {
    say!(out; "{} @{}\n", block.line, block.label.number());
    for phi in block.phis.as_slice() {
        say!(out; "{}", phi.line);
        show_dest(out, phi.to);
        out.add(" phi");
        for arg in phi.args.as_slice() {
            say!(out; " @{} {}", arg.from.number(), Shown(arg.value));
        }
        out.add("\n");
    }
    for inst in block.insts.as_slice() {
        say!(out; "{}", inst.line);
        show_inst(out, &inst.item);
        out.add("\n");
    }
    if let Some(jump) = &block.jump {
        show_jump(out, jump);
    }
}

fn show_inst(out: &mut TextMaker, inst: &Inst) {
    match inst {
        Inst::Unary { to, op, value } => {
            show_dest(out, *to);
            say!(out; " {op:?} {}", Shown(*value));
        }
        Inst::Binary {
            to,
            op,
            left,
            right,
        } => {
            show_dest(out, *to);
            say!(out; " {op:?} {} {}", Shown(*left), Shown(*right));
        }
        Inst::Alloc {
            to,
            alignment,
            size,
        } => {
            show_dest(out, *to);
            say!(out; " {alignment:?} {size}");
        }
        Inst::Store { size, value, at } => {
            say!(out; " store {size:?} {} {}", Shown(*value), Shown(*at));
        }
        Inst::Blit { from, to, count } => {
            say!(out; " blit {} {} {count}", Shown(*from), Shown(*to));
        }
        Inst::Call { to, callee, args } => {
            if let Some(to) = to {
                show_dest(out, *to);
            }
            say!(out; " call {}", Shown(*callee));
            for arg in args.as_slice() {
                say!(out; " {:?} {}", arg.class, Shown(arg.value));
            }
        }
    }
}

fn show_jump(out: &mut TextMaker, jump: &Lined<Jump>) {
    say!(out; "{} ", jump.line);
    match jump.item {
        Jump::Goto(label) => say!(out; "jmp @{}\n", label.number()),
        Jump::Branch {
            on,
            nonzero,
            otherwise,
        } => {
            let (one, other) = (nonzero.number(), otherwise.number());
            say!(out; "jnz {} @{one} @{other}\n", Shown(on));
        }
        Jump::Return(Some(value)) => say!(out; "ret {}\n", Shown(value)),
        Jump::Return(None) => out.add("ret\n"),
        Jump::Halt => out.add("hlt\n"),
    }
}

fn show_object(out: &mut TextMaker, object: &DataDef) {
    let (name, alignment) = (object.name.number(), object.alignment);
    say!(out; "{} data ${name} {:?} {alignment}", object.line, object.exported);
    for field in object.fields.as_slice() {
        match field {
            Field::Zeros(count) => say!(out; " z {count}"),
            Field::Items { size, items } => {
                say!(out; " {size:?}");
                show_items(out, items.as_slice());
            }
        }
    }
    out.add("\n");
}

fn show_items(out: &mut TextMaker, items: &[Item]) {
    for item in items {
        match item {
            Item::Int(number) => say!(out; " {number}"),
            Item::Bytes(bytes) => {
                out.add(" \"");
                show_bytes(out, bytes.as_slice());
                out.add("\"");
            }
            Item::Address { symbol, offset } => say!(out; " ${}+{offset}", symbol.number()),
        }
    }
}
