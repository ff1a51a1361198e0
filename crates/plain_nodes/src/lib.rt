//! Trees and slots of the plain namespace: what stands at a path, and how nodes and live files come and go.
//!
//! A contract sees the plain namespace, and compares what a call answers and leaves with the
//! definitions of lookup and of the life of files. Nothing is indexed: each search is a walk over a
//! list. It takes no step by itself, and knows neither references by number nor mounts that come.
#![tactic(auto)]

pub mod applying;
pub mod asking;
pub mod changes;
pub mod lookup;
pub mod nodes;
pub mod paths;
pub mod rows;
pub mod sources;
pub mod trees;
