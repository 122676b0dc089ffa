// How the nodes are linked, and the order in which their timers fire.
ghost use Rattle.std.specs.Prelude.{◌≡◌, ◌≢◌, ◌+◌, ◌*◌, ◌/◌, ◌^◌, ◌<◌, ◌≤◌, ◌↔◌, false, not, if◌then◌else◌, IsTrue, length, slice_index_or, slice_set};
ghost use Rattle.callouts.specs.Nodes.{held_at, key_at, key_of, timer_of};
ghost use Rattle.callouts.specs.Heaps.{IsHung};

use crate::nodes::Node;
use crate::timers::Entry;

/// The grains of a second.
const SECOND: u128 = 1 << 64;

// Whether one timer fires before the other: it is due before it, or its id is less. The due times are told apart by their
// seconds, where these differ.
fn is_earlier(one: Entry, other: Entry) -> bool
    ensures { IsTrue result ↔ (key_of one < key_of other) }
{
    let (one_sec, other_sec) = ((one.due / SECOND) as u64, (other.due / SECOND) as u64);
    if one_sec != other_sec {
        return one_sec < other_sec;
    }
    let (one_frac, other_frac) = ((one.due % SECOND) as u64, (other.due % SECOND) as u64);
    if one_frac != other_frac {
        return one_frac < other_frac;
    }
    one.id < other.id
}

/// The node that hangs from the first hook of a node, from the side 0, or from the second, from the side 1.
pub fn kid(nodes: &[Node], node: u32, side: u32) -> u32
    requires node { node < length nodes.now }
    requires side { side < 2 }
    ensures { result ≡ held_at nodes.now (2 * node + side) }
{
    nodes[node as usize].kids[side as usize]
}

/// The timer of a node.
pub fn timer(nodes: &[Node], node: u32) -> Entry
    requires { node < length nodes.now }
    ensures value { result ≡ timer_of nodes.now node }
    ensures bound { key_at nodes.now node < 2 ^ 192 }
{
    let node = &nodes[node as usize];
    let (id, due) = (node.id, node.due);
    Entry { id, due }
}

/// Whether the timer of a node fires before another one.
pub fn is_ahead(nodes: &[Node], node: u32, other: Entry) -> bool
    requires { node < length nodes.now }
    ensures { IsTrue result ↔ (key_at nodes.now node < key_of other) }
{
    is_earlier(timer(nodes, node), other)
}

/// Whether one timer fires before the other.
pub fn is_before(nodes: &[Node], one: u32, other: u32) -> bool
    requires one { one < length nodes.now }
    requires other { other < length nodes.now }
    ensures { IsTrue result ↔ (key_at nodes.now one < key_at nodes.now other) }
{
    is_ahead(nodes, one, timer(nodes, other))
}

/// Hangs a node from a hook.
pub fn hang(nodes: &mut [Node], hook: u32, node: u32)
    requires hook { hook / 2 < length nodes.old }
    requires node { node < length nodes.old }
    ensures { IsHung nodes.old nodes.new hook node }
{
    let above = &mut nodes[(hook / 2) as usize];
    above.kids[(hook % 2) as usize] = node;
    if node != 0 {
        nodes[node as usize].hook = hook;
    }
}

/// Hangs the node of a timer from a hook of a node.
pub fn hang_timer(nodes: &mut [Node], node: u32, side: u32, timer: u32)
    requires node { node < length nodes.old }
    requires side { side < 2 }
    requires timer { timer < length nodes.old }
    requires some { timer ≢ 0 }
    requires few { length nodes.old ≤ 65792 }
    ensures { IsHung nodes.old nodes.new (2 * node + side) timer }
{
    let above = &mut nodes[node as usize];
    above.kids[side as usize] = timer;
    nodes[timer as usize].hook = 2 * node + side;
}

/// Which hook of a node is next, in turns: of the side 0 or 1.
pub fn next_side(turned: &mut [bool], node: u32) -> u32
    requires { node < length turned.old }
    ensures side { result ≡ (if slice_index_or turned.old node false then 1 else 0) }
    ensures turns { turned.new ≡ slice_set turned.old node (not (slice_index_or turned.old node false)) }
    ensures within { result < 2 }
    ensures long { length turned.new ≡ length turned.old }
{
    let now = turned[node as usize];
    turned[node as usize] = !now;
    u32::from(now)
}
