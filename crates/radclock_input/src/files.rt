// What a stamp file gives.
ghost use Rattle.std.specs.Prelude.{◌≡◌, ◌≤◌};
ghost use Rattle.stamp_text.specs.Accepted.{IsItemInRange};
ghost use Rattle.stamp_text.specs.Format.{least_freq, greatest_freq};
ghost use Rattle.stamp_text.specs.Past.{seen_after, test_of};

use stamp_text::{Head, Item, Past, Refused};

/// The most bytes of an input.
pub const MOST_BYTES: u64 = 16_777_216;

/// The most well-formed item lines of an input.
pub const MOST_ITEMS: usize = 65_536;

/// The most accepted stamps and sets of an input together, where these are limited.
pub const MOST_ACCEPTED: usize = 16_384;

/// A well-formed item and the number of its line, from 1.
#[derive(Clone, Copy, Debug, PartialEq, Eq)]
pub struct ItemLine {
    pub line: u64,
    pub item: Item,
}

/// What the lines of an input have given.
#[derive(Drop)]
pub struct StampFile {
    /// The version of the format, and the counter's nominal frequency in Hz; both are 0 before the head.
    pub head: Head,
    /// The items in the order of their lines.
    pub items: Vec<ItemLine>,
}

/// Tests an item of any kind behind the accepted ones. Where none of the tests of its kind holds it is
/// accepted, and else nothing changes.
#[inline(always)]
pub fn accept_item(past: &mut Past, item: &Item, freq: u64) -> Result<(), Refused>
    requires low { least_freq ≤ freq }
    requires high { freq ≤ greatest_freq }
    requires range { IsItemInRange item.now }
    ensures test { result ≡ test_of freq past.old item.now }
    ensures after { past.new ≡ seen_after past.old item.now result }
{
    match item {
        Item::Stamp(stamp) => past.stamp(stamp, freq),
        Item::Set { count, at: _ } => past.set(*count),
        Item::Leap { count, leap } => past.leap(*count, *leap),
    }
}
