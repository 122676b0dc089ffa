// What fits goes on to fit.
ghost use Rattle.std.specs.Prelude.{◌≡◌};
ghost use Rattle.tick_views.specs.Worlds.{Fits, Goes};

/// The law that a view which fits the world goes on to fit it, whatever step another seat makes: no
/// such step takes back what was published, moves the turn word or the counter back, or makes an old
/// mark full again.
pub fn views_stay_fit()
    ensures { (w : _) (v : _) (after : _) → Goes w after → Fits w v → Fits after v }
{}
