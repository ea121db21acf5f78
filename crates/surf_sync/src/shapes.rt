// The codes of a phase, in order.
ghost use Rattle.std.specs.Prelude.{◌≡◌, ◌<◌, ◌++◌, IfOk, OnOk, None};
ghost use Rattle.surf_sync.specs.Codes.{protocol};
ghost use Rattle.surf_sync.specs.Rules.{codes_of};
ghost use Rattle.surf_sync.specs.Shapes.{by_acc, by_previous, by_reads};

use crate::Code;
use crate::pushing::push;
use crate::reading::phase_before;
use std::alloc::Global;
use surf_auto::Local;
use surf_base::NoMemory;

fn push_accs<L: Local>(
    out: &mut Vec<Code>,
    local: &L,
    phase: u32,
    current: u32,
    previous: u32,
    reads: u32,
) -> Result<(), NoMemory>
    requires phase { phase < (L.rule local.now).phases }
    requires reads { reads < (L.rule local.now).degree }
    ensures { let R = L.rule local.now in
        OnOk result (out.new.items ≡ out.old.items ++ by_acc R phase current previous reads) }
{
    for acc in 0..local.accs(phase, reads) {
        let code = Code {
            current,
            generation: 0,
            colour: 0,
            previous,
            reads,
            acc,
        };
        push(out, code)?;
    }
    Ok(())
}

fn push_reads<L: Local>(
    out: &mut Vec<Code>,
    local: &L,
    phase: u32,
    current: u32,
    previous: u32,
) -> Result<(), NoMemory>
    requires { phase < (L.rule local.now).phases }
    ensures { let R = L.rule local.now in
        OnOk result (out.new.items ≡ out.old.items ++ by_reads R phase current previous) }
{
    for reads in 0..local.degree() {
        push_accs(out, local, phase, current, previous, reads)?;
    }
    Ok(())
}

/// Adds the codes of a phase of one state.
pub fn push_previous<L: Local>(
    out: &mut Vec<Code>,
    local: &L,
    phase: u32,
    current: u32,
) -> Result<(), NoMemory>
    requires { phase < (L.rule local.now).phases }
    ensures { let R = L.rule local.now in
        OnOk result (out.new.items ≡ out.old.items ++ by_previous R phase current) }
{
    for previous in 0..local.states(phase_before(local, phase)) {
        push_reads(out, local, phase, current, previous)?;
    }
    Ok(())
}

/// The codes of a phase that differ in their states and in what they have read, of generation and
/// colour 0.
pub fn phase_codes<L: Local>(alloc: Global, local: &L, phase: u32) -> Result<Vec<Code>, NoMemory>
    requires { phase < (L.rule local.now).phases }
    ensures { IfOk result (λ v. v.items ≡ codes_of (protocol (L.rule local.now) 0 None) phase 0 0) }
{
    let mut out = Vec::new(alloc);
    for current in 0..local.states(phase) {
        push_previous(&mut out, local, phase, current)?;
    }
    Ok(out)
}
