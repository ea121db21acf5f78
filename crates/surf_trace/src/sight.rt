// What names tell an observer, read once for each name.
ghost use Rattle.std.specs.Prelude.{◌≡◌, ◌<◌, IfOk, length, map};
ghost use Rattle.surf_trace.specs.Sights.{sight_in, sight_of};

use std::alloc::Global;
use surf_base::NoMemory;
use surf_rules::Names;
use surf_sync::{code_of, frame_of};

/// A cell's state and generation, the frame, or the name of neither.
#[derive(Clone, Copy)]
pub(crate) enum Sight {
    Cell { state: u32, generation: u32 },
    Frame,
    Other,
}

fn read_sight(name: &[u8]) -> Sight
    ensures { result ≡ sight_of name.now }
{
    match (code_of(name), frame_of(name)) {
        (Some(code), _) => Sight::Cell {
            state: code.current,
            generation: code.generation,
        },
        (None, Some(_)) => Sight::Frame,
        (None, None) => Sight::Other,
    }
}

/// What each name tells, by its number.
pub(crate) fn list_sights(alloc: Global, names: &Names) -> Result<Vec<Sight>, NoMemory>
    ensures { IfOk result (λ v. v.items ≡ map sight_of names.now) }
{
    let mut sights = Vec::with_capacity(alloc, names.len() as usize).map_err(|_| NoMemory)?;
    for id in 0..names.len() {
        sights
            .push(read_sight(names.text(id)))
            .map_err(|_| NoMemory)?;
    }
    Ok(sights)
}

/// What the name of a number tells.
pub(crate) fn sight_in(sights: &[Sight], name: u32) -> Sight
    requires { name < length sights.now }
    ensures { result ≡ sight_in sights.now name }
{
    sights[name as usize]
}
