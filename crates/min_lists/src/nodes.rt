// The nodes that the six lists share.
ghost use Rattle.std.specs.Prelude.{◌≡◌, ℕ, ◌%◌, ◌<◌, ◌≢◌};
ghost use Rattle.min_lists.specs.Nodes.{trip_at, link_at, before_at, after_at};

use crate::trips::Trip;
use std::alloc::{AllocError, Global};
use std::marker::Model;

/// How many nodes there are. That of an index stands in the slot `index % ROOM`.
pub const ROOM: u64 = 1024;

/// How a node is linked in the list of one window.
#[derive(Clone, Copy)]
pub struct Link {
    /// One more than the index of the node before it: the latest earlier round trip that isn't above
    /// it. At most the window's left end where there is none.
    pub before: u64,
    /// The index of the node after it, where there is one.
    pub after: u64,
}

/// A round trip, with its links in the six lists.
#[derive(Clone, Copy)]
pub struct Node {
    pub trip: Trip,
    pub links: [Link; 6],
}

/// The nodes of the last 1,024 round trips.
#[derive(Drop)]
pub struct Nodes {
    slots: Vec<Node>,
}

impl Model for Nodes {
    ghost use Rattle.std.specs.Prelude.{◌≡◌, List, vec_len};
    ghost use Rattle.min_lists.specs.declared.nodes.Node.{Node};

    ghost Value = { List Node };

    ghost view = { λ n. n.slots.items };

    ghost invariant = { λ n. vec_len n.slots ≡ 1024 };
}

impl Nodes {
    /// Nodes that no list has.
    pub fn new(alloc: Global) -> Result<Nodes, AllocError> {
        let link = Link {
            before: 0,
            after: 0,
        };
        let node = Node {
            trip: Trip::new(0),
            links: [link; 6],
        };
        Ok(Nodes {
            slots: vec![in alloc; node; ROOM as usize]?,
        })
    }

    /// The round trip of this index.
    #[inline(always)]
    pub fn trip(&self, index: u64) -> Trip
        ensures { result ≡ trip_at self.now index }
    {
        self.slots[(index % ROOM) as usize].trip
    }

    /// How the node of this index is linked in the list at this place.
    #[inline(always)]
    pub fn link(&self, place: usize, index: u64) -> Link
        requires { place < 6 }
        ensures { result ≡ link_at self.now place index }
    {
        self.slots[(index % ROOM) as usize].links[place]
    }

    /// Gives the node of this index its round trip.
    #[inline(always)]
    pub fn set_trip(&mut self, index: u64, trip: Trip)
        ensures here { trip_at self.new index ≡ trip }
        ensures others { (i : ℕ) → i % 1024 ≢ index % 1024 →
            trip_at self.new i ≡ trip_at self.old i }
        ensures links { (p i : ℕ) → link_at self.new p i ≡ link_at self.old p i }
    {
        let node = &mut self.slots[(index % ROOM) as usize];
        node.trip = trip;
    }

    /// Links the node of this index to the one before it in the list at this place.
    #[inline(always)]
    pub fn set_before(&mut self, place: usize, index: u64, before: u64)
        requires { place < 6 }
        ensures here { before_at self.new place index ≡ before }
        ensures others { (i : ℕ) → i % 1024 ≢ index % 1024 →
            before_at self.new place i ≡ before_at self.old place i }
        ensures afters { (i : ℕ) → after_at self.new place i ≡ after_at self.old place i }
        ensures other_lists { (p i : ℕ) → p ≢ place → link_at self.new p i ≡ link_at self.old p i }
        ensures trips { (i : ℕ) → trip_at self.new i ≡ trip_at self.old i }
    {
        let node = &mut self.slots[(index % ROOM) as usize];
        node.links[place].before = before;
    }

    /// Links the node of this index to the one after it in the list at this place.
    #[inline(always)]
    pub fn set_after(&mut self, place: usize, index: u64, after: u64)
        requires { place < 6 }
        ensures here { after_at self.new place index ≡ after }
        ensures others { (i : ℕ) → i % 1024 ≢ index % 1024 →
            after_at self.new place i ≡ after_at self.old place i }
        ensures befores { (i : ℕ) → before_at self.new place i ≡ before_at self.old place i }
        ensures other_lists { (p i : ℕ) → p ≢ place → link_at self.new p i ≡ link_at self.old p i }
        ensures trips { (i : ℕ) → trip_at self.new i ≡ trip_at self.old i }
    {
        let node = &mut self.slots[(index % ROOM) as usize];
        node.links[place].after = after;
    }
}
