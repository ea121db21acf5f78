// The trace of a simulation, event by event.
ghost use Rattle.std.specs.Prelude.{◌≡◌, OnOk};
ghost use Rattle.surf_base.specs.Emits.{Emits, outlet};
ghost use Rattle.surf_pick.specs.Draws.{words_of};
ghost use Rattle.surf_trace.specs.Traces.{event_text, events_text, trace_text};
ghost use Rattle.surf_command_runs.specs.Prints.{placed_events, left_world};

use surf_base::{Outbox, Sink, WriteFault};
use surf_lattice::Lattice;
use surf_pick::Picker;
use surf_sim::Sim;
use surf_trace::put_event;
use surf_world::Event;

fn print_event<K: Sink>(
    outbox: &mut Outbox,
    out: &mut K,
    n: u64,
    event: &Event,
) -> Result<(), WriteFault>
    ensures { Emits (outlet (K.written out.old) outbox.old (K.faults out.old))
        (outlet (K.written out.new) outbox.new (K.faults out.new))
        (event_text n event.now) result }
{
    let mut line = [0u8; 80];
    let len = put_event(&mut line, n, event);
    outbox.put(out, &line[..len])
}

// Takes events until there are so many or none is enabled, and prints the line of each.
fn print_events<L: Lattice, P: Picker, K: Sink>(
    sim: &mut Sim<L, P>,
    count: u64,
    outbox: &mut Outbox,
    out: &mut K,
) -> Result<(), WriteFault>
    ensures emits { Emits (outlet (K.written out.old) outbox.old (K.faults out.old))
        (outlet (K.written out.new) outbox.new (K.faults out.new))
        (events_text 0 (placed_events sim.old.placed (words_of sim.old.generator) count)) result }
    ensures world { let events = placed_events sim.old.placed (words_of sim.old.generator) count in
        OnOk result (sim.new.placed ≡ left_world sim.old.placed events) }
{
    for n in 0..count {
        match sim.step() {
            None => return Ok(()),
            Some(event) => print_event(outbox, out, n + 1, &event)?,
        }
    }
    Ok(())
}

/// Takes events until there are so many or none is enabled, and prints their trace block.
pub fn print_trace<L: Lattice, P: Picker, K: Sink>(
    sim: &mut Sim<L, P>,
    count: u64,
    outbox: &mut Outbox,
    out: &mut K,
) -> Result<(), WriteFault>
    ensures emits { Emits (outlet (K.written out.old) outbox.old (K.faults out.old))
        (outlet (K.written out.new) outbox.new (K.faults out.new))
        (trace_text (placed_events sim.old.placed (words_of sim.old.generator) count)) result }
    ensures world { let events = placed_events sim.old.placed (words_of sim.old.generator) count in
        OnOk result (sim.new.placed ≡ left_world sim.old.placed events) }
{
    outbox.put(out, b"!START_TRACE\n")?;
    print_events(sim, count, outbox, out)?;
    outbox.put(out, b"!END_TRACE\n")
}
