//! Large trees of names before and after they change, as they show themselves.

use crate::paths::{go_down, numbered, path_at};
use crate::shelf::{is_there, make, move_node, put_on_top};
use node_maps::TreeFault;
use std::alloc::Global;
use tmpfs::NodeTree;
use vfs_base::{FileId, Generation, Kind, Name, NoMemory, NodeKind, Path, RowId};

/// Shows each case.
pub fn show_all(rt: &HostRuntime) -> Result<(), TreeFault> {
    show_full_folder(rt)?;
    show_chain(rt)?;
    show_wide_tree(rt)?;
    show_full_move(rt)?;
    show_files(rt)
}

// One folder that has as many nodes as there may be.
fn show_full_folder(rt: &HostRuntime) -> Result<(), TreeFault> {
    let mut tree = NodeTree::new(rt.alloc())?;
    for at in 0..4096u32 {
        make(
            rt.alloc(),
            &mut tree,
            numbered(rt.alloc(), "", at)?.as_str(),
        )?;
    }
    show_tree(rt, &tree, "/")?;
    let more = make(rt.alloc(), &mut tree, "/more");
    let _ = println!(rt; "full {}", matches!(more, Err(TreeFault::Full)));
    show_tree(rt, &tree, "/")
}

// As many folders as there may be, one in the other, each of one name.
fn show_chain(rt: &HostRuntime) -> Result<(), TreeFault> {
    let mut tree = NodeTree::new(rt.alloc())?;
    let mut path = Path::root(rt.alloc());
    for _ in 0..4096u32 {
        put_on_top(rt.alloc(), &mut tree)?;
        go_down(rt.alloc(), &mut path)?;
    }
    show_at(rt, &tree, path.as_names())?;
    let _deepest = path.pop();
    show_at(rt, &tree, path.as_names())
}

// Sixteen folders of sixteen folders of fourteen, all below one that is moved.
fn show_wide_tree(rt: &HostRuntime) -> Result<(), TreeFault> {
    let mut tree = NodeTree::new(rt.alloc())?;
    make(rt.alloc(), &mut tree, "/old")?;
    for at in 0..16u32 {
        grow(rt, &mut tree, at)?;
    }
    show_move(rt, &mut tree)
}

fn grow(rt: &HostRuntime, tree: &mut NodeTree, at: u32) -> Result<(), TreeFault> {
    let folder = numbered(rt.alloc(), "/old", at)?;
    make(rt.alloc(), tree, folder.as_str())?;
    for inner in 0..16u32 {
        grow_inner(rt, tree, folder.as_str(), inner)?;
    }
    Ok(())
}

fn grow_inner(
    rt: &HostRuntime,
    tree: &mut NodeTree,
    folder: &str,
    inner: u32,
) -> Result<(), TreeFault> {
    let folder = numbered(rt.alloc(), folder, inner)?;
    make(rt.alloc(), tree, folder.as_str())?;
    for leaf in 0..14u32 {
        make(
            rt.alloc(),
            tree,
            numbered(rt.alloc(), folder.as_str(), leaf)?.as_str(),
        )?;
    }
    Ok(())
}

fn show_move(rt: &HostRuntime, tree: &mut NodeTree) -> Result<(), TreeFault> {
    show_tree(rt, tree, "/old/15/15")?;
    let moved = move_node(rt.alloc(), tree, "/old", "/new")?;
    let _ = println!(rt; "moved {moved}");
    show_tree(rt, tree, "/new/15/15")?;
    let gone = is_there(rt.alloc(), tree, "/old/15/15/13")?;
    let _ = println!(rt; "old {gone}");
    Ok(())
}

// A folder of 4,000 nodes, which moves at once.
fn show_full_move(rt: &HostRuntime) -> Result<(), TreeFault> {
    let mut tree = NodeTree::new(rt.alloc())?;
    make(rt.alloc(), &mut tree, "/old")?;
    for at in 0..4000u32 {
        let text = numbered(rt.alloc(), "/old", at)?;
        make(rt.alloc(), &mut tree, text.as_str())?;
    }
    let moved = move_node(rt.alloc(), &mut tree, "/old", "/new")?;
    let _ = println!(rt; "moved {moved}");
    show_tree(rt, &tree, "/new")?;
    let gone = is_there(rt.alloc(), &tree, "/old/3999")?;
    let _ = println!(rt; "old {gone}");
    Ok(())
}

// A file that stands at two places of a tree, one of which goes.
fn show_files(rt: &HostRuntime) -> Result<(), TreeFault> {
    let mut tree = NodeTree::new(rt.alloc())?;
    make(rt.alloc(), &mut tree, "/a")?;
    make(rt.alloc(), &mut tree, "/a/b")?;
    link_file(rt.alloc(), &mut tree, "/f", 7)?;
    link_file(rt.alloc(), &mut tree, "/a/b/f", 7)?;
    link_file(rt.alloc(), &mut tree, "/a/g", 8)?;
    show_rows(rt, &tree)?;
    let inside = make(rt.alloc(), &mut tree, "/f/x");
    let _ = println!(rt;
        "below a file {}",
        matches!(inside, Err(TreeFault::NotFound))
    );
    let gone = unlink(rt.alloc(), &mut tree, "/f")?;
    let _ = println!(rt; "gone {gone}");
    let moved = move_node(rt.alloc(), &mut tree, "/a", "/c")?;
    let _ = println!(rt; "moved {moved}");
    show_rows(rt, &tree)?;
    Ok(())
}

fn show_rows(rt: &HostRuntime, tree: &NodeTree) -> Result<(), NoMemory> {
    for text in ["/f", "/a/b/f", "/a/g", "/c/b/f", "/c/g"] {
        let row = row_at(rt.alloc(), tree, text)?;
        let _ = println!(rt; "{text} {row}");
    }
    Ok(())
}

// The row of the file at the path, or 0 where none stands.
fn row_at(alloc: Global, tree: &NodeTree, text: &str) -> Result<u16, NoMemory> {
    let path = path_at(alloc, text)?;
    match tree.find(path.as_names()) {
        Some(NodeKind::File { file, .. }) => Ok(file.row.number()),
        Some(NodeKind::Dir) | None => Ok(0),
    }
}

fn link_file(alloc: Global, tree: &mut NodeTree, text: &str, row: u16) -> Result<(), TreeFault> {
    let path = path_at(alloc, text)?;
    let Some(row) = RowId::new(row) else {
        return Ok(());
    };
    let file = FileId {
        row,
        generation: Generation::FIRST,
    };
    tree.link(path.as_names(), file, Kind::Tmp)
}

// Takes a node away, unless something stands below it.
fn unlink(alloc: Global, tree: &mut NodeTree, text: &str) -> Result<bool, TreeFault> {
    let path = path_at(alloc, text)?;
    if tree.has_below(path.as_names()) {
        return Ok(false);
    }
    let _node = tree.unlink(path.as_names())?;
    Ok(true)
}

// The number of all nodes, and what the folder shows.
fn show_tree(rt: &HostRuntime, tree: &NodeTree, text: &str) -> Result<(), TreeFault> {
    let path = path_at(rt.alloc(), text)?;
    show_at(rt, tree, path.as_names())
}

fn show_at(rt: &HostRuntime, tree: &NodeTree, path: &[Name]) -> Result<(), TreeFault> {
    let there = matches!(tree.find(path), Some(NodeKind::Dir));
    let entries = tree.list(path)?;
    let _ = println!(rt;
        "{} nodes, folder {there}, {} entries",
        tree.len(),
        entries.len()
    );
    Ok(())
}
