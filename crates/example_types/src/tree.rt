//! A type that holds itself, through a box and through a list, is written by the library's own
//! implementations of these. It is read by the small calls of a reader.
ghost use Rattle.std.specs.Prelude.{pos};
ghost use Rattle.serde_dynamo.specs.Datum as datum;
ghost use Rattle.serde_dynamo.specs.Datum.{Datum};

use serde_dynamo::de::{Deserialize, Deserializer, Error, Integer, Reader, Request, Showing};
use serde_dynamo::ser::{Serialize, Serializer};
use std::alloc::Global;

/// A tree whose leaves are numbers.
#[derive(Debug, Drop)]
pub enum Tree {
    /// A leaf with a number.
    Leaf(u64),
    /// A node with one tree.
    Only(Box<Tree>),
    /// A node with several trees.
    Many(Vec<Tree>),
}

impl Serialize for Tree {
    ghost use Rattle.example_types.specs.declared.tree.Tree.TheFolds.{fold-Tree};
    ghost use Rattle.example_types.specs.declared.tree.Tree.TheOpen.{Tree-F};

    // One level, where the datum of each inner tree is known.
    ghost tells = { fold-Tree Datum (elim [
      | Tree-F.Leaf n ↦ datum.integer datum.u64 (pos n)
      | Tree-F.Only child ↦ datum.some child.value
      | Tree-F.Many children ↦ datum.seq (datum.elements_of children.items)
    ]) };

    fn serialize<S: Serializer>(&self, serializer: S) -> Result<S::Ok, S::Error> {
        match self {
            Tree::Leaf(n) => serializer.serialize_u64(*n),
            Tree::Only(child) => serializer.serialize_some(child),
            Tree::Many(children) => children.serialize(serializer),
        }
    }
}

impl Deserialize for Tree {
    ghost reads = { λ _ _. Unit {0} };

    fn deserialize<D: Deserializer>(alloc: Global, deserializer: D) -> Result<Tree, D::Error> {
        read(alloc, deserializer)
    }
}

// A number is a leaf, a list a node.
#[cycle(read)]
fn read<R: Reader>(alloc: Global, reader: R) -> Result<Tree, R::Error> {
    match reader.show(Request::Any)? {
        Showing::Integer(Integer::I64(n)) => match u64::try_from(n) {
            Ok(n) => Ok(Tree::Leaf(n)),
            Err(_) => Err(R::Error::custom(alloc, "a leaf is below zero")),
        },
        Showing::Integer(Integer::U64(n)) => Ok(Tree::Leaf(n)),
        Showing::Sequence(elements) => Ok(Tree::Many(children::<R>(alloc, elements)?)),
        _ => Err(R::Error::custom(alloc, "neither a leaf nor a node")),
    }
}

#[cycle(read)]
fn children<R: Reader>(alloc: Global, mut elements: R::Elements) -> Result<Vec<Tree>, R::Error> {
    let mut children = Vec::new(alloc);
    while let Some(element) = R::next_element(&mut elements) {
        let child = read(alloc, element)?;
        if children.push(child).is_err() {
            return Err(R::Error::out_of_memory());
        }
    }
    Ok(children)
}
