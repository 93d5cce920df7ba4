//! Whether two tasks and their memories are the same, as far as both kinds have the same parts.

use caf_base::{Kind, Object};
use caf_code::Wait as CodeWait;
use caf_memory::ImageMemory;
use caf_treestep::{Task as TreeTask, Wait as TreeWait};
use caf_vm::Task;

/// Whether two tasks wait for the same.
fn same_wait(tree: Option<TreeWait>, code: Option<CodeWait>) -> bool {
    match (tree, code) {
        (None, None) => true,
        (Some(TreeWait::Value), Some(CodeWait::Value)) => true,
        (Some(TreeWait::Done), Some(CodeWait::Written)) => true,
        (Some(TreeWait::NewTeam(a)), Some(CodeWait::NewTeam(b))) => a == b,
        _ => false,
    }
}

/// Whether two tasks have the same cells, values held and open calls, and wait for the same.
pub(crate) fn same_task(tree: &TreeTask, task: &Task) -> bool {
    if tree.frame.locals.as_slice() != task.cells() {
        return false;
    }
    if tree.held.as_slice() != task.held() {
        return false;
    }
    if tree.below.len() != task.open_calls() {
        return false;
    }
    same_wait(tree.wait, task.wait())
}

fn same_posts_of(a: &ImageMemory, b: &ImageMemory, object: u32, found: Object) -> bool {
    if found.kind != Kind::Event {
        return true;
    }
    for offset in 0..found.extent {
        let index = found.lower.saturating_add(i64::from(offset));
        if a.posts(object, index) != b.posts(object, index) {
            return false;
        }
    }
    true
}

/// Whether two memories have the same posts, and aim their copointers alike.
fn same_objects(a: &ImageMemory, b: &ImageMemory) -> bool {
    let mut object = 0_u32;
    for found in a.objects() {
        if !same_posts_of(a, b, object, *found) {
            return false;
        }
        if a.copointer(object) != b.copointer(object) {
            return false;
        }
        object = object.saturating_add(1);
    }
    true
}

fn same_lines(a: &ImageMemory, b: &ImageMemory) -> bool {
    if a.lines().len() != b.lines().len() {
        return false;
    }
    for (one, other) in a.lines().iter().zip(b.lines()) {
        if one.as_str() != other.as_str() {
            return false;
        }
    }
    true
}

/// Whether two memories hold the same.
pub(crate) fn same_memory(a: &ImageMemory, b: &ImageMemory) -> bool {
    if a.image() != b.image() || a.images() != b.images() {
        return false;
    }
    if a.objects() != b.objects() {
        return false;
    }
    if a.cells() != b.cells() {
        return false;
    }
    if a.teams() != b.teams() {
        return false;
    }
    if !same_objects(a, b) {
        return false;
    }
    same_lines(a, b)
}
