// The event of a line.
ghost use Rattle.std.specs.Prelude.{◌≡◌};
ghost use Rattle.surf_text.specs.Bytes.{tokens_of};
ghost use Rattle.surf_trace.specs.TraceTexts.{event_of, second_of, site_of};

use surf_base::{read_below, read_decimal};
use surf_lattice::Site;
use surf_text::next_token;
use surf_world::Event;

// The numbers of a rule and of a site are below this.
const SHORT: u64 = 1 << 32;

fn read_site(x: &[u8], y: &[u8]) -> Option<Site>
    ensures { result ≡ site_of x.now y.now }
{
    match (read_below(SHORT, x), read_below(SHORT, y)) {
        (Some(x), Some(y)) => Some(Site { x, y }),
        _ => None,
    }
}

// The second site, if there is one, from what follows the first.
fn read_second(line: &[u8]) -> Option<Option<Site>>
    ensures { result ≡ second_of (tokens_of line.now) }
{
    let Some((x, rest)) = next_token(line) else {
        return Some(None);
    };
    let (y, rest) = next_token(rest)?;
    match next_token(rest) {
        Some(_) => None,
        None => read_site(x, y).map(Some),
    }
}

/// The event of a line, where it is the event at this place, counted from 1.
pub(crate) fn read_event(place: u64, line: &[u8]) -> Option<Event>
    ensures { result ≡ event_of place (tokens_of line.now) }
{
    let (number, rest) = next_token(line)?;
    let (rule, rest) = next_token(rest)?;
    let (x, rest) = next_token(rest)?;
    let (y, rest) = next_token(rest)?;
    if read_decimal(number) != Some(place) {
        return None;
    }
    match (read_below(SHORT, rule), read_site(x, y), read_second(rest)) {
        (Some(rule), Some(first), Some(second)) => Some(Event {
            rule,
            first,
            second,
        }),
        _ => None,
    }
}
