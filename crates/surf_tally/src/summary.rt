// The summary of what was counted.
ghost use Rattle.std.specs.Prelude.{◌≡◌, ◌<◌, ◌^◌, All, Some, get_or, length, map, slice_get};
ghost use Rattle.surf_tally.specs.Summing.{live_one, reached_at, state_some, summed, with_cell};

use crate::counts::Count;

// The state of a live cell.
const LIVE: u32 = 1;

/// What some cells came to: how many they are, after how many events, the least and the greatest
/// number of generations that one of them came to, and how many were live in one of them.
#[derive(Clone, Copy, Debug, PartialEq, Eq)]
pub struct Tally {
    pub cells: u64,
    pub events: u64,
    pub least: u64,
    pub greatest: u64,
    pub live: u64,
}

// 1 for a cell that was live in the generation that is watched, else 0.
fn live_one(count: Count, watched: u64) -> u64
    ensures { result ≡ live_one (state_some watched (Some count)) }
{
    if count.reached >= watched && count.state == LIVE {
        1
    } else {
        0
    }
}

// A tally with one more cell.
fn with_cell(tally: Tally, count: Count, watched: u64) -> Tally
    requires { tally.live < 2 ^ 63 }
    ensures { result ≡ with_cell watched count tally }
{
    Tally {
        cells: tally.cells,
        events: tally.events,
        least: tally.least.min(count.reached),
        greatest: tally.greatest.max(count.reached),
        live: tally.live + live_one(count, watched),
    }
}

fn count_at(counts: &[Count], place: usize) -> Count
    requires { place < length counts.now }
    ensures { slice_get counts.now place ≡ Some result }
{
    counts[place]
}

// The generations that the first cell came to, and 0 where there is none.
fn first_reached(counts: &[Count], places: &[usize]) -> u64
    requires { All (λ p. p < length counts.now) places.now }
    ensures { result ≡ get_or (map (reached_at counts.now) places.now) 0 0 }
{
    match places.first() {
        Some(place) => count_at(counts, *place).reached,
        None => 0,
    }
}

/// Sums up the counts at some places.
pub(crate) fn sum_up(counts: &[Count], places: &[usize], watched: u64, events: u64) -> Tally
    requires { All (λ p. p < length counts.now) places.now }
    ensures { result ≡ summed counts.now watched events places.now }
{
    let first = first_reached(counts, places);
    let mut tally = Tally {
        cells: places.len() as u64,
        events,
        least: first,
        greatest: first,
        live: 0,
    };
    for place in places {
        tally = with_cell(tally, count_at(counts, *place), watched);
    }
    tally
}
