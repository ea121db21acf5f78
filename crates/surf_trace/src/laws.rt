// The law of texts of traces, the contract of a function that does nothing.
ghost use Rattle.std.specs.Prelude.{◌≡◌, ◌<◌, ◌^◌, ◌++◌, ℕ, List, All, Ok, length};
ghost use Rattle.surf_world.specs.declared.event.Event.{Event};
ghost use Rattle.surf_trace.specs.Traces.{trace_text};
ghost use Rattle.surf_trace.specs.TraceTexts.{trace_of, IsShort};

/// The trace block of any events is read as these events, whatever follows it.
pub fn trace_is_read()
    ensures { (es : List Event) (rest : List ℕ) → length es < 2 ^ 64 → All IsShort es
        → trace_of (trace_text es ++ rest) ≡ Ok es }
{}
