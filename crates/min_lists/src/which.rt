// The six windows by name.
ghost use Rattle.std.specs.Prelude.{◌≡◌, ◌<◌};
ghost use Rattle.min_lists.specs.Links.{place};

/// One of the six sliding windows over round trips.
#[derive(Clone, Copy, Debug, PartialEq, Eq)]
pub enum Which {
    /// The round trips that the base is the least of.
    Base,
    /// The latest of them, in which a new level shows.
    Recent,
    /// The first quarter of the far window.
    WideOld,
    /// The last quarter of the far window.
    WideNew,
    /// The first quarter of the near window.
    NearOld,
    /// The last quarter of the near window.
    NearNew,
}

impl Which {
    /// Its place among the six.
    #[inline(always)]
    pub(crate) fn place(self) -> usize
        ensures value { result ≡ place self }
        ensures within { result < 6 }
    {
        match self {
            Which::Base => 0,
            Which::Recent => 1,
            Which::WideOld => 2,
            Which::WideNew => 3,
            Which::NearOld => 4,
            Which::NearNew => 5,
        }
    }
}
