//! Which functions a program's functions call by name, and which ones calls by pointer may mean. It serves to guess bounds, and nothing proved rests on it.
use crate::names::names_in;
use crate::values::arity;
use il_ast::limits::ARGUMENTS;
use il_ast::{Block, Callee, Few, Field, Inst, Item, Jump, Symbol, Target, Val};
use obj_link::Linked;
use std::alloc::{AllocError, Global};

/// Who calls whom. A node is a function by its number, or, behind these, all calls by pointer with 0, 1, .. arguments.
#[derive(Drop)]
pub struct Graph {
    /// the number of functions
    functions: usize,
    /// for each node those that it may call, and those that may call it
    callees: Vec<Few<usize>>,
    callers: Vec<Few<usize>>,
    /// for each function whether it may become a value
    values: Vec<bool>,
}

impl Graph {
    /// The number of nodes.
    pub(crate) fn len(&self) -> usize {
        self.callees.len()
    }

    /// The number of functions.
    pub(crate) fn functions(&self) -> usize {
        self.functions
    }

    /// The nodes that this one may call.
    pub(crate) fn callees_of(&self, node: usize) -> &[usize] {
        list_at(self.callees.as_slice(), node)
    }

    /// The nodes that may call this one.
    pub(crate) fn callers_of(&self, node: usize) -> &[usize] {
        list_at(self.callers.as_slice(), node)
    }

    /// The functions, by number, that a call by pointer with so many arguments may mean: those with as many parameters whose name stands where it may become a value.
    pub fn meant_by(&self, arguments: usize) -> &[usize] {
        self.callees_of(pointed(self, arguments))
    }
}

fn list_at(lists: &[Few<usize>], node: usize) -> &[usize] {
    lists.get(node).map_or(&[], |list| list.as_slice())
}

/// The node of calls by pointer with so many arguments, of which there are at most as many as a call has.
pub(crate) fn pointed(graph: &Graph, arguments: usize) -> usize {
    graph.functions.saturating_add(arguments.min(ARGUMENTS))
}

fn push(lists: &mut [Few<usize>], node: usize, other: usize) -> Result<(), AllocError> {
    match lists.get_mut(node) {
        Some(list) => list.push(other),
        None => Ok(()),
    }
}

fn add_edge(graph: &mut Graph, from: usize, to: usize) -> Result<(), AllocError> {
    push(graph.callees.as_mut_slice(), from, to)?;
    push(graph.callers.as_mut_slice(), to, from)
}

/// Marks the function that a name means, which may become a value.
fn mark_name(graph: &mut Graph, names: &[Target], symbol: Symbol) {
    if let Some(Target::Code(Callee::Defined(function))) = names.get(symbol.number())
        && let Some(is_value) = graph.values.get_mut(*function)
    {
        *is_value = true;
    }
}

fn mark_operand(graph: &mut Graph, names: &[Target], value: Val) {
    if let Val::Global(symbol) = value {
        mark_name(graph, names, symbol);
    }
}

fn add_call(
    graph: &mut Graph,
    from: usize,
    names: &[Target],
    callee: Val,
    arguments: usize,
) -> Result<(), AllocError> {
    let to = match callee {
        Val::Int(_) => return Ok(()),
        Val::Temp(_) => pointed(graph, arguments),
        Val::Global(symbol) => match names.get(symbol.number()) {
            Some(Target::Code(Callee::Defined(to))) => *to,
            _ => return Ok(()),
        },
    };
    add_edge(graph, from, to)
}

fn add_inst(
    graph: &mut Graph,
    from: usize,
    names: &[Target],
    inst: &Inst,
) -> Result<(), AllocError> {
    match inst {
        Inst::Unary { value, .. } | Inst::Store { value, .. } => {
            mark_operand(graph, names, *value);
            Ok(())
        }
        Inst::Call { callee, args, .. } => {
            for arg in args.as_slice() {
                mark_operand(graph, names, arg.value);
            }
            add_call(graph, from, names, *callee, args.len())
        }
        _ => Ok(()),
    }
}

fn add_block(
    graph: &mut Graph,
    from: usize,
    names: &[Target],
    block: &Block,
) -> Result<(), AllocError> {
    for arg in block
        .phis
        .as_slice()
        .iter()
        .flat_map(|phi| phi.args.as_slice())
    {
        mark_operand(graph, names, arg.value);
    }
    if let Some(jump) = &block.jump
        && let Jump::Return(Some(value)) = jump.item
    {
        mark_operand(graph, names, value);
    }
    for inst in block.insts.as_slice() {
        add_inst(graph, from, names, &inst.item)?;
    }
    Ok(())
}

fn add_functions(graph: &mut Graph, linked: &Linked<'_>) -> Result<(), AllocError> {
    for (number, function) in linked.functions.as_slice().iter().enumerate() {
        let names = names_in(linked, function.text);
        for block in function.item.blocks.as_slice() {
            add_block(graph, number, names, block)?;
        }
    }
    Ok(())
}

fn mark_field(graph: &mut Graph, names: &[Target], field: &Field) {
    if let Field::Items { items, .. } = field {
        for item in items.as_slice() {
            if let Item::Address { symbol, .. } = item {
                mark_name(graph, names, *symbol);
            }
        }
    }
}

fn mark_objects(graph: &mut Graph, linked: &Linked<'_>) {
    for object in linked.objects.as_slice() {
        let names = names_in(linked, object.text);
        for field in object.item.fields.as_slice() {
            mark_field(graph, names, field);
        }
    }
}

/// Calls by pointer may mean the functions that may become values.
fn add_values(graph: &mut Graph, linked: &Linked<'_>) -> Result<(), AllocError> {
    for function in 0..graph.functions {
        if graph.values.get(function) == Some(&true) {
            let from = pointed(graph, arity(linked, function));
            add_edge(graph, from, function)?;
        }
    }
    Ok(())
}

fn empty_lists(alloc: Global, count: usize) -> Result<Vec<Few<usize>>, AllocError> {
    (0..count).map(|_| Few::new(alloc)).collect(alloc)
}

/// Who calls whom in a program. It takes time and memory as the program is long.
///
/// # Errors
///
/// Only where memory was refused.
pub fn graph_of(alloc: Global, linked: &Linked<'_>) -> Result<Graph, AllocError> {
    let functions = linked.functions.len();
    let nodes = functions.saturating_add(ARGUMENTS).saturating_add(1);
    let mut graph = Graph {
        functions,
        callees: empty_lists(alloc, nodes)?,
        callers: empty_lists(alloc, nodes)?,
        values: vec![in alloc; false; functions]?,
    };
    add_functions(&mut graph, linked)?;
    mark_objects(&mut graph, linked);
    add_values(&mut graph, linked)?;
    Ok(graph)
}
