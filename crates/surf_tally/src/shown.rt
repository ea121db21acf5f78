// What names show, read once for each name.
ghost use Rattle.std.specs.Prelude.{◌≡◌, ◌<◌, IfOk, length, map};
ghost use Rattle.surf_tally.specs.Showings.{look, shown_of};

use std::alloc::Global;
use surf_base::NoMemory;
use surf_rules::Names;
use surf_sync::code_of;

/// The state and the generation that a cell's name shows.
#[derive(Clone, Copy)]
pub(crate) struct Shown {
    pub state: u32,
    pub generation: u32,
}

fn shown_of(name: &[u8]) -> Option<Shown>
    ensures { result ≡ shown_of name.now }
{
    let code = code_of(name)?;
    Some(Shown {
        state: code.current,
        generation: code.generation,
    })
}

/// What each name shows, by its number: nothing where it is no cell's.
pub(crate) fn list_shown(alloc: Global, names: &Names) -> Result<Vec<Option<Shown>>, NoMemory>
    ensures { IfOk result (λ v. v.items ≡ map shown_of names.now) }
{
    let mut shown = Vec::with_capacity(alloc, names.len() as usize).map_err(|_| NoMemory)?;
    for id in 0..names.len() {
        shown.push(shown_of(names.text(id))).map_err(|_| NoMemory)?;
    }
    Ok(shown)
}

/// What the name of a number shows.
pub(crate) fn look(shown: &[Option<Shown>], name: u32) -> Option<Shown>
    requires { name < length shown.now }
    ensures { result ≡ look shown.now name }
{
    shown[name as usize]
}
