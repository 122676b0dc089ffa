// A lane, with both its ends.
ghost use Rattle.est_lane.specs.Lanes.{IsLane};

use crate::ends::{LaneIn, LaneOut};
use ff_grain::NoMemory;
use rtrb::RingBuffer;
use std::alloc::Global;

/// The two ends of one lane. Each may be lent to a thread of its own.
#[derive(Drop)]
pub struct Lane {
    pub input: LaneIn,
    pub output: LaneOut,
    ghost pair: { IsLane input output },
}

impl Lane {
    ghost use Rattle.std.specs.Prelude.{◌≡◌, ◌≤◌, [], IfOk};
    ghost use Rattle.est_lane.specs.Lanes.{sent_by, room_of, received_by, known_to};

    /// A lane on which nothing was sent, with room for so many events, from 1 to 16,384.
    ///
    /// It takes all its memory here, and want of it is the only error.
    pub fn new(alloc: Global, room: usize) -> Result<Lane, NoMemory>
        requires { (1 ≤ room) × (room ≤ 16384) }
        ensures input { IfOk result (λ l. (sent_by l.input ≡ []) × (room_of l.input ≡ room)) }
        ensures output { IfOk result (λ l. (received_by l.output ≡ []) × (known_to l.output ≡ [])) }
    {
        let (producer, consumer) = RingBuffer::new(alloc, room)?;
        Ok(Lane {
            input: LaneIn { producer },
            output: LaneOut { consumer },
        })
    }
}
