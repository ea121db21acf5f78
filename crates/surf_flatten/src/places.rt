// Places by text.
ghost use Rattle.std.specs.Prelude.{◌≡◌, ◌++◌, ◌∷◌, [], false, IfOk, slice_get};
ghost use Rattle.std.specs.Str.{bytes_eq};
ghost use Rattle.surf_logic.specs.Order.{has};
ghost use Rattle.surf_flatten.specs.Tables.{found_in};

use crate::texts::holds;
use std::alloc::Global;
use surf_base::NoMemory;
use surf_rules::Names;

// Texts, and a place beside each.
#[derive(Drop)]
pub(crate) struct Places {
    names: Names,
    places: Vec<usize>,
}

impl Places {
    pub(crate) fn new(alloc: Global) -> Places
        ensures names { result.names ≡ [] }
        ensures places { result.places.items ≡ [] }
    {
        Places {
            names: Names::new(alloc),
            places: Vec::new(alloc),
        }
    }

    pub(crate) fn has(&self, text: &[u8]) -> bool
        ensures { result ≡ has bytes_eq self.now.names text.now }
    {
        holds(&self.names, text)
    }

    // The place of a text.
    pub(crate) fn place(&self, text: &[u8]) -> Option<usize>
        ensures { result ≡ found_in self.now.names self.now.places.items text.now }
    {
        // the names tell that they are distinct
        let _count = self.names.len();
        match self.names.find(text) {
            Some(number) => place_at(&self.places, number as usize),
            None => None,
        }
    }

    // Adds a text that isn't there.
    pub(crate) fn add(&mut self, text: &[u8], place: usize) -> Result<(), NoMemory>
        requires { has bytes_eq self.old.names text.now ≡ false }
        ensures names { IfOk result (λ _. self.new.names ≡ self.old.names ++ text.now ∷ []) }
        ensures places { IfOk result
            (λ _. self.new.places.items ≡ self.old.places.items ++ place ∷ []) }
    {
        if self.names.len() == u32::MAX {
            return Err(NoMemory);
        }
        self.names.intern(text)?;
        self.places.push(place).map_err(|_| NoMemory)?;
        Ok(())
    }
}

fn place_at(places: &[usize], number: usize) -> Option<usize>
    ensures { result ≡ slice_get places.now number }
{
    if number < places.len() {
        Some(places[number])
    } else {
        None
    }
}
