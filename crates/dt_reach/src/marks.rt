ghost use Rattle.std.specs.Prelude.{◌≡◌, true, slice_set, IfOk};
ghost use Rattle.dt_reach.specs.Reach.{is_marked, with_mark, marked_on, spread, ahead_of};

use crate::ways::Ways;
use dt_bits::NoMemory;
use std::alloc::Global;

/// Whether the node is marked. A node that isn't among those of the list isn't.
pub fn is_marked(marks: &[bool], node: usize) -> bool
    ensures { result ≡ is_marked marks.now node }
{
    match marks.get(node) {
        Some(mark) => *mark,
        None => false,
    }
}

// With this node too, where it is among those of the list.
fn mark(marks: &mut Vec<bool>, node: usize)
    ensures { marks.new.items ≡ slice_set marks.old.items node true }
{
    if node < marks.len() {
        marks[node] = true;
    }
}

// With this node too, where there is one.
fn mark_way(marks: &mut Vec<bool>, way: Option<u32>)
    ensures { marks.new.items ≡ with_mark way marks.old.items }
{
    if let Some(node) = way {
        mark(marks, node as usize);
    }
}

// With the nodes to which node `n` leads at once, where it is marked itself.
fn mark_on(marks: &mut Vec<bool>, n: usize, ways: Ways)
    ensures { marks.new.items ≡ marked_on (is_marked marks.old.items n) ways marks.old.items }
{
    if is_marked(marks.as_slice(), n) {
        mark_way(marks, ways.then_to);
        mark_way(marks, ways.other);
    }
}

// With each node to which a marked one leads.
fn spread(marks: &mut Vec<bool>, ways: &[Ways])
    ensures { marks.new.items ≡ spread ways.now 0 marks.old.items }
{
    for (n, way) in ways.iter().enumerate() {
        mark_on(marks, n, *way);
    }
}

/// Which nodes a walk can come to that is at node `from`, that one among them.
pub fn ahead_of(alloc: Global, ways: &[Ways], from: usize) -> Result<Vec<bool>, NoMemory>
    ensures { IfOk result (λ v. v.items ≡ ahead_of ways.now from) }
{
    let mut marks = vec![in alloc; false; ways.len()]?;
    mark(&mut marks, from);
    spread(&mut marks, ways);
    Ok(marks)
}
