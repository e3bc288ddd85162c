use crate::planting::Planting;
use records::Kind;
use std::alloc::{AllocError, Global};
use std::fmt;

/// How many functions nest below a root: each takes three nestings, and the innermost holds a statement.
const FUNCTIONS: u32 = 42;

/// How many classes nest below a root: each takes four nestings, and the innermost holds a statement with names.
const CLASSES: u32 = 31;

/// How many functions nest around a call of `eval`.
const AROUND_EVAL: u32 = 41;

/// The trees, each for any number of records.
#[derive(Clone, Copy)]
pub(crate) enum Shape {
    /// Functions of which each calls the next one, and the last the first.
    Ring,
    /// Functions of which each calls the next one, and nobody the first.
    Chain,
    /// Functions nested as deep as they may be, each called by the one around it.
    Functions,
    /// Classes nested as deep as they may be, by constructors; the innermost reads the names of all around it.
    Classes,
    /// Functions nested as deep as they may be around a call of `eval`; the innermost has parameters.
    Eval,
    /// Specifiers of one Import, each of which is read.
    Imports,
    /// Functions of which each reads the names of all others; one is called.
    Mesh,
}

/// What the tree is called.
impl fmt::Display for Shape {
    fn fmt<W: fmt::Write>(&self, f: &mut fmt::Formatter<W>) -> fmt::Result {
        f.write_str(match self {
            Shape::Ring => "ring",
            Shape::Chain => "chain",
            Shape::Functions => "functions",
            Shape::Classes => "classes",
            Shape::Eval => "eval",
            Shape::Imports => "imports",
            Shape::Mesh => "mesh",
        })
    }
}

impl Shape {
    /// The words of such a tree of at most so many records.
    pub(crate) fn planted(self, heap: Global, size: u32) -> Result<Vec<u32>, AllocError> {
        let mut tree = Planting::module(heap)?;
        let room = size.saturating_sub(1);
        match self {
            Shape::Ring => plant_ring(&mut tree, room / 6)?,
            Shape::Chain => plant_chain(&mut tree, room / 6)?,
            Shape::Functions => plant_functions(&mut tree, room / (6 * FUNCTIONS + 1))?,
            Shape::Classes => plant_classes(&mut tree, room / (5 * CLASSES + 1))?,
            Shape::Eval => plant_eval(&mut tree, room.saturating_sub(3 * AROUND_EVAL + 3))?,
            Shape::Imports => plant_imports(&mut tree, room.saturating_sub(3) / 2)?,
            Shape::Mesh => plant_mesh(&mut tree, side(size))?,
        }
        Ok(tree.into_words())
    }
}

/// So many functions of which each calls the next one, and the last the first.
fn plant_ring(tree: &mut Planting, count: u32) -> Result<(), AllocError> {
    for function in 0..count {
        tree.add_function(2, function)?;
        tree.add_call(5, (function + 1) % count)?;
    }
    Ok(())
}

/// So many functions of which each calls the next one; what the last one calls is declared nowhere.
fn plant_chain(tree: &mut Planting, count: u32) -> Result<(), AllocError> {
    for function in 0..count {
        tree.add_function(2, function)?;
        tree.add_call(5, function + 1)?;
    }
    Ok(())
}

/// So many nests of functions, each called by the one around it, and the outermost by the root.
fn plant_functions(tree: &mut Planting, count: u32) -> Result<(), AllocError> {
    for nest in 0..count {
        let first = nest.wrapping_mul(FUNCTIONS);
        for depth in 0..FUNCTIONS {
            tree.add_function(2 + 3 * depth, first.wrapping_add(depth))?;
        }
        tree.add(2 + 3 * FUNCTIONS, Kind::PlainStatement)?;
        for depth in (0..FUNCTIONS).rev() {
            tree.add_call(2 + 3 * depth, first.wrapping_add(depth))?;
        }
    }
    Ok(())
}

/// So many nests of classes, the innermost of which reads the names of all around it.
fn plant_classes(tree: &mut Planting, count: u32) -> Result<(), AllocError> {
    for nest in 0..count {
        let first = nest.wrapping_mul(CLASSES);
        for depth in 0..CLASSES {
            tree.add_class(2 + 4 * depth, first.wrapping_add(depth))?;
        }
        tree.add_readings(2 + 4 * CLASSES, first, CLASSES - 1)?;
    }
    Ok(())
}

/// Functions nested around a call of `eval`, the innermost with so many parameters.
fn plant_eval(tree: &mut Planting, count: u32) -> Result<(), AllocError> {
    for depth in 0..AROUND_EVAL - 1 {
        tree.add_function(2 + 3 * depth, depth)?;
    }
    let innermost = 3 * AROUND_EVAL - 1;
    tree.add_function_of(innermost, AROUND_EVAL - 1, AROUND_EVAL, count)?;
    tree.add_eval(innermost + 3)
}

/// One Import of so many names, each of which is read.
fn plant_imports(tree: &mut Planting, count: u32) -> Result<(), AllocError> {
    tree.add(2, Kind::Import)?;
    tree.add_row(3, Kind::Specifier, 0, count)?;
    tree.add_readings(2, 0, count)
}

/// So many functions of which each reads the names of all; its own is not counted. The root calls the first.
fn plant_mesh(tree: &mut Planting, count: u32) -> Result<(), AllocError> {
    for function in 0..count {
        tree.add_function(2, function)?;
        tree.add_readings(5, 0, count)?;
    }
    tree.add_call(2, 0)
}

/// How many functions that read the names of all have room in a tree.
fn side(size: u32) -> u32 {
    (1..128u32)
        .take_while(|count| count * (count + 5) + 4 <= size)
        .last()
        .unwrap_or(0)
}
