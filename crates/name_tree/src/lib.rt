//! Values at paths: a tree of names in which a node moves with all below it in one step.
//!
//! A contract sees a `NameTree` as the values by path, in the order of paths, that of the root among
//! them. Each call takes the time of a walk along its paths, however many nodes there are.
//! It knows nothing of files and folders, and nothing of limits.
#![tactic(auto)]

mod links;
mod listing;
mod name_tree;
mod node;

pub use name_tree::NameTree;
