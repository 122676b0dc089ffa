// The two ends of a lane.
ghost use Rattle.std.specs.Prelude.{◌+◌, ◌≤◌, length};
ghost use Rattle.rtrb.specs.Ring.{sent, known_free, producer_capacity};

use ff_estimator::Event;
use rtrb::{Consumer, Producer};

/// The end that sends. It may go to the thread of a daemon.
///
/// It never waits and never fails, since a lane takes its room for all that is ever sent on it.
#[derive(Drop)]
pub struct LaneIn {
    pub(crate) producer: Producer<Event>,
    // All of the room that was not used for an event is known to be free, so a send looks at nothing.
    ghost roomy: { producer_capacity producer ≤ known_free producer + length (sent producer) },
}

/// The end that receives. It may go to the thread that winds a clock.
#[derive(Drop)]
pub struct LaneOut {
    pub(crate) consumer: Consumer<Event>,
}

impl LaneIn {
    ghost use Rattle.std.specs.Prelude.{◌≡◌, ◌<◌, [], ◌∷◌, ◌++◌, length};
    ghost use Rattle.est_lane.specs.Lanes.{sent_by, room_of, SameIn};

    /// Sends an event, behind all that were sent before it.
    ///
    /// Fewer events were sent than the lane has room for. Those that were received count too: the
    /// room is for all that are ever sent.
    pub fn send(&mut self, e: Event)
        requires { length (sent_by self.old) < room_of self.old }
        ensures end { SameIn self.old self.new }
        ensures sent { sent_by self.new ≡ sent_by self.old ++ e ∷ [] }
    {
        self.producer.push_reserved(e);
    }
}

impl LaneOut {
    ghost use Rattle.std.specs.Prelude.{◌≡◌, ◌<◌, [], ◌∷◌, ◌++◌, length, IfSome, MatchOption};
    ghost use Rattle.est_lane.specs.Lanes.{sent_by, received_by, known_to, IsLane, SameIn, SameOut};

    /// Receives the next event, where one has come. It does not wait.
    ///
    /// The known events come first. `None` says that there were none, and that no other was seen;
    /// that none was sent it does not say, unless this thread holds both ends, and let them
    /// [`meet`](LaneOut::meet) since the last send.
    pub fn take(&mut self) -> Option<Event>
        ensures end { SameOut self.old self.new }
        ensures received { MatchOption result
            ((received_by self.new ≡ received_by self.old) × (known_to self.old ≡ []))
            (λ e. received_by self.new ≡ received_by self.old ++ e ∷ []) }
        ensures first { 0 < length (known_to self.old) →
            IfSome result (λ e. known_to self.old ≡ e ∷ known_to self.new) }
    {
        // A known event is there without a look at the other end.
        if self.consumer.cached_slots() > 0 {
            return Some(self.consumer.pop_known());
        }
        self.consumer.pop().ok()
    }

    /// Looks at all that was sent, where this thread holds both ends of one lane.
    ///
    /// From then on `take` answers, in order, what was sent and not received yet, and `None` only
    /// behind all of it.
    pub fn meet(&mut self, beside: &mut LaneIn)
        requires { IsLane beside.old self.old }
        ensures end { SameOut self.old self.new }
        ensures beside { SameIn beside.old beside.new }
        ensures sent { sent_by beside.new ≡ sent_by beside.old }
        ensures received { received_by self.new ≡ received_by self.old }
        ensures known { received_by self.new ++ known_to self.new ≡ sent_by beside.new }
    {
        self.consumer.slots_beside(&mut beside.producer);
    }
}
