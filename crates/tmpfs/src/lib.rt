//! The file system in memory: a tree of folders and files, whose bytes lie elsewhere.
//!
//! A contract sees a `NodeTree` as its nodes by path, the `Tree` of `vfs_model`. Which fault each
//! call has, and what it leaves, is told in `node_maps`, `specs/NodeMap.antt`. A call takes the time of
//! a walk along its paths, and a listing that of what it lists.
//! It knows no mount, no vnode slot and no error that a shell shows.
#![tactic(auto)]

mod node_tree;

pub use node_tree::NodeTree;
