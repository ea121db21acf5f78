// One line of a trace.
ghost use Rattle.std.specs.Prelude.{◌≡◌, ◌≤◌, ◌+◌, ◌<◌, ◌++◌, length, take};
ghost use Rattle.std.specs.Fmt.{decimal};
ghost use Rattle.surf_trace.specs.Traces.{event_text, site_text};

use surf_base::put_decimal;
use surf_lattice::Site;
use surf_world::Event;

// Puts bytes at a place, and answers the place behind them.
fn put(buffer: &mut [u8; 80], at: usize, bytes: &[u8]) -> usize
    requires { at + length bytes.now ≤ 80 }
    ensures place { result ≡ at + length bytes.now }
    ensures text { take result buffer.new ≡ take at buffer.old ++ bytes.now }
{
    let end = at + bytes.len();
    buffer[at..end].copy_from_slice(bytes);
    end
}

fn put_long(buffer: &mut [u8; 80], at: usize, n: u64) -> usize
    requires { at ≤ 60 }
    ensures place { result ≤ at + 20 }
    ensures text { take result buffer.new ≡ take at buffer.old ++ decimal n }
{
    let mut digits = [0u8; 20];
    let count = put_decimal(&mut digits, n);
    put(buffer, at, &digits[..count])
}

fn put_short(buffer: &mut [u8; 80], at: usize, n: u32) -> usize
    requires { at ≤ 70 }
    ensures place { result ≤ at + 10 }
    ensures text { take result buffer.new ≡ take at buffer.old ++ decimal n }
{
    let mut digits = [0u8; 20];
    let count = put_decimal(&mut digits, u64::from(n));
    put(buffer, at, &digits[..count])
}

fn put_site(buffer: &mut [u8; 80], at: usize, site: Site) -> usize
    requires { at ≤ 58 }
    ensures place { result ≤ at + 22 }
    ensures text { take result buffer.new ≡ take at buffer.old ++ site_text site }
{
    let at = put(buffer, at, b" ");
    let at = put_short(buffer, at, site.x);
    let at = put(buffer, at, b" ");
    put_short(buffer, at, site.y)
}

/// Writes the line of a run's event at the front, with its line feed, and answers its length.
/// Events are counted from 1.
pub fn put_event(buffer: &mut [u8; 80], n: u64, event: &Event) -> usize
    ensures text { take result buffer.new ≡ event_text n event.now }
    ensures within { result ≤ 80 }
{
    let at = put_long(buffer, 0, n);
    let at = put(buffer, at, b" ");
    let at = put_short(buffer, at, event.rule);
    let at = put_site(buffer, at, event.first);
    let at = match event.second {
        Some(second) => put_site(buffer, at, second),
        None => at,
    };
    put(buffer, at, b"\n")
}
