//! Trees of a given size and one operation on them, over and over: bench/names.sh counts the instructions.

use crate::paths::{numbered, path_at};
use crate::shelf::{move_apart, put_on_top};
use node_maps::TreeFault;
use std::alloc::Global;
use tmpfs::NodeTree;
use vfs_base::{Name, NoMemory};

/// How the nodes stand: in one folder, each below the last one, or sixteen below each.
#[derive(Clone, Copy, Debug, PartialEq, Eq)]
pub enum Shape {
    Folder,
    Chain,
    Tree,
}

/// What is done, over and over.
#[derive(Clone, Copy, Debug, PartialEq, Eq)]
pub enum Operation {
    /// Nothing: what the tree itself costs.
    Nothing,
    /// A look-up of one node.
    Find,
    /// A folder comes, and goes again.
    Insert,
    /// A node moves to another name in its folder, and back.
    Rename,
    /// A listing of one folder.
    List,
}

/// A tree, and so many operations on it.
#[derive(Clone, Copy)]
pub struct Task {
    pub shape: Shape,
    pub nodes: u32,
    pub operation: Operation,
    pub count: u32,
}

/// The task that four words name: the shape, the nodes, the operation, and how often.
pub fn task_of(words: &[String]) -> Option<Task> {
    match words {
        [shape, nodes, operation, count] => Some(Task {
            shape: shape_of(shape.as_str())?,
            nodes: nodes.parse::<u32>().ok()?,
            operation: operation_of(operation.as_str())?,
            count: count.parse::<u32>().ok()?,
        }),
        _ => None,
    }
}

fn shape_of(word: &str) -> Option<Shape> {
    match word {
        "folder" => Some(Shape::Folder),
        "chain" => Some(Shape::Chain),
        "tree" => Some(Shape::Tree),
        _ => None,
    }
}

fn operation_of(word: &str) -> Option<Operation> {
    match word {
        "nothing" => Some(Operation::Nothing),
        "find" => Some(Operation::Find),
        "insert" => Some(Operation::Insert),
        "rename" => Some(Operation::Rename),
        "list" => Some(Operation::List),
        _ => None,
    }
}

/// Makes the tree and does the operations, and answers whether each of them did what it should.
pub fn run_task(alloc: Global, task: Task) -> Result<bool, TreeFault> {
    let mut tree = NodeTree::new(alloc)?;
    grow(alloc, &mut tree, task)?;
    let place = path_at(alloc, place_text(alloc, task)?.as_str())?;
    let target = path_at(alloc, target_text(alloc, task)?.as_str())?;
    repeat(&mut tree, place.as_names(), target.as_names(), task)
}

fn grow(alloc: Global, tree: &mut NodeTree, task: Task) -> Result<(), TreeFault> {
    for at in 0..task.nodes {
        match task.shape {
            Shape::Folder => insert_at(alloc, tree, numbered(alloc, "", at)?.as_str())?,
            Shape::Chain => put_on_top(alloc, tree)?,
            Shape::Tree => insert_at(alloc, tree, tree_text(alloc, at)?.as_str())?,
        }
    }
    Ok(())
}

fn insert_at(alloc: Global, tree: &mut NodeTree, text: &str) -> Result<(), TreeFault> {
    let path = path_at(alloc, text)?;
    tree.insert_dir(path.as_names())
}

// The path of a node of the tree with sixteen below each: 16 on the first level, 256 on the second,
// and then those of the third.
fn tree_text(alloc: Global, at: u32) -> Result<String, NoMemory> {
    if at < 16 {
        return numbered(alloc, "", at);
    }
    if at < 272 {
        let folder = numbered(alloc, "", (at - 16) / 16)?;
        return numbered(alloc, folder.as_str(), (at - 16) % 16);
    }
    let inner = at - 272;
    let top = numbered(alloc, "", inner / 256)?;
    let folder = numbered(alloc, top.as_str(), inner / 16 % 16)?;
    numbered(alloc, folder.as_str(), inner % 16)
}

// The path on which the operation works.
fn place_text(alloc: Global, task: Task) -> Result<String, NoMemory> {
    match (task.shape, task.operation) {
        (Shape::Folder, Operation::Find | Operation::Rename) => numbered(alloc, "", task.nodes / 2),
        (Shape::Folder, Operation::Insert) => text_at(alloc, "/new"),
        (Shape::Folder, Operation::List | Operation::Nothing) => text_at(alloc, "/"),
        (Shape::Chain, Operation::Insert) => chain_text(alloc, "new"),
        (Shape::Chain, _) => chain_text(alloc, "d"),
        (Shape::Tree, Operation::Find) => tree_text(alloc, task.nodes.saturating_sub(1)),
        (Shape::Tree, Operation::Insert) => text_at(alloc, "/0/3/new"),
        (Shape::Tree, _) => text_at(alloc, "/0"),
    }
}

// Where the node goes that is renamed: another name in its folder.
fn target_text(alloc: Global, task: Task) -> Result<String, NoMemory> {
    match task.shape {
        Shape::Folder | Shape::Tree => text_at(alloc, "/new"),
        Shape::Chain => chain_text(alloc, "new"),
    }
}

fn text_at(alloc: Global, text: &str) -> Result<String, NoMemory> {
    Ok(text.to_string(alloc)?)
}

// A name at a fixed depth of the chain, the 32nd from the top.
fn chain_text(alloc: Global, name: &str) -> Result<String, NoMemory> {
    let mut text = String::new(alloc);
    for _ in 0..31u32 {
        text.push_str("/d")?;
    }
    Ok(format!(in alloc; "{text}/{name}")?)
}

fn repeat(
    tree: &mut NodeTree,
    place: &[Name],
    target: &[Name],
    task: Task,
) -> Result<bool, TreeFault> {
    for _ in 0..task.count {
        if !operate(tree, place, target, task.operation)? {
            return Ok(false);
        }
    }
    Ok(true)
}

fn operate(
    tree: &mut NodeTree,
    place: &[Name],
    target: &[Name],
    operation: Operation,
) -> Result<bool, TreeFault> {
    match operation {
        Operation::Nothing => Ok(true),
        Operation::Find => Ok(tree.find(place).is_some()),
        Operation::Insert => come_and_go(tree, place),
        Operation::Rename => Ok(
            move_apart(tree, place, target)? && move_apart(tree, target, place)?,
        ),
        Operation::List => Ok(!tree.list(place)?.is_empty()),
    }
}

fn come_and_go(tree: &mut NodeTree, place: &[Name]) -> Result<bool, TreeFault> {
    tree.insert_dir(place)?;
    if tree.has_below(place) {
        return Ok(false);
    }
    let _gone = tree.unlink(place)?;
    Ok(true)
}
