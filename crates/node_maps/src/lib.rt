//! What file systems that keep nodes by path share: the faults of their calls, and what these mean.
//!
//! A contract sees such a file system as its nodes by path, in the order of paths; the root is not
//! among them and is always a folder. `specs/NodeMap.antt` says which fault each call has, and what
//! the call leaves, for nodes of any kind.
//! It keeps no node itself, and knows nothing of mounts, steps or errors that a shell shows.
#![tactic(auto)]

mod tree_fault;

pub use tree_fault::TreeFault;
