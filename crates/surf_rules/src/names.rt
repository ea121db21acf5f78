// Distinct names and their numbers.
ghost use Rattle.std.specs.Prelude.{◌≡◌, ◌<◌, ◌^◌, ◌-◌, ◌++◌, ◌∷◌, [], length, IfOk, OnErr, OnOk, false, IfSome, IfNone, slice_get, Some, ℕ};
ghost use Rattle.std.specs.List.{list_any};
ghost use Rattle.std.specs.Str.{bytes_eq};
ghost use Rattle.surf_rules.specs.Names.{AreDistinct, with_text};

use crate::hashing::NameKey;
use indexmap::IndexSet;
use std::alloc::Global;
use std::marker::Model;
use surf_base::NoMemory;

/// Distinct texts, numbered from 0 in the order of their arrival: at most 2^32 - 1.
#[derive(Drop)]
pub struct Names {
    alloc: Global,
    set: IndexSet<Vec<u8>, NameKey>,
}

impl Model for Names {
    ghost use Rattle.std.specs.Prelude.{List, ℕ, ◌<◌, ◌^◌, map, length};
    ghost use Rattle.surf_rules.specs.Names.{AreDistinct};

    ghost Value = { List (List ℕ) };

    ghost view = { λ n. map (λ v. v.items) n.set.keys };

    ghost invariant = { λ n.
        AreDistinct (map (λ v. v.items) n.set.keys)
        × (length (map (λ v. v.items) n.set.keys) < 2 ^ 32) };
}

impl Names {
    /// No texts. Takes no memory.
    pub fn new(alloc: Global) -> Names
        ensures { result ≡ [] }
    {
        Names::keyed(alloc, &[])
    }

    /// No texts. Those to come stand in `source`, and each of its bytes decides how they are hashed,
    /// so that none can be chosen to collide before all are. One pass over `source`, and no memory.
    pub fn keyed(alloc: Global, source: &[u8]) -> Names
        ensures { result ≡ [] }
    {
        Names {
            alloc,
            set: IndexSet::with_hasher(alloc, NameKey::new(source)),
        }
    }

    /// How many texts there are.
    pub fn len(&self) -> u32
        ensures count { result ≡ length self.now }
        ensures distinct { AreDistinct self.now }
        ensures bound { length self.now < 2 ^ 32 }
    {
        self.set.len() as u32
    }

    /// The number of a text, if it is there. Takes no memory.
    pub fn find(&self, bytes: &[u8]) -> Option<u32>
        ensures found { IfSome result (λ k. slice_get self.now k ≡ Some bytes.now) }
        ensures within { IfSome result (λ k. k < length self.now) }
        ensures none { IfNone result ((k : ℕ) → slice_get self.now k ≡ Some bytes.now → ⊥) }
    {
        let place = self.set.get_index_of(bytes)?;
        Some(place as u32)
    }

    /// The text of a number. Takes no memory.
    pub fn text(&self, id: u32) -> &[u8]
        requires { id < length self.now }
        ensures { slice_get self.now id ≡ Some result.now }
    {
        self.set.get_index(id as usize).unwrap().as_slice()
    }

    /// The number of a text, which goes last where it is new. After `NoMemory` nothing has changed.
    pub fn intern(&mut self, bytes: &[u8]) -> Result<u32, NoMemory>
        requires room { length self.old < 2 ^ 32 - 1 }
        ensures found { IfOk result (λ k. slice_get self.new k ≡ Some bytes.now) }
        ensures within { IfOk result (λ k. k < length self.new) }
        ensures grown { OnOk result (self.new ≡ with_text self.old bytes.now) }
        ensures err { OnErr result (self.new ≡ self.old) }
    {
        if let Some(place) = self.set.get_index_of(bytes) {
            return Ok(place as u32);
        }
        let name = bytes.to_vec(self.alloc).map_err(|_| NoMemory)?;
        add(&mut self.set, name)?;
        Ok((self.set.len() - 1) as u32)
    }
}

// Adds a name that isn't there.
fn add(set: &mut IndexSet<Vec<u8>, NameKey>, name: Vec<u8>) -> Result<(), NoMemory>
    requires { list_any (λ k. bytes_eq name.items k.items) set.old.keys ≡ false }
    ensures ok { OnOk result (set.new.keys ≡ set.old.keys ++ name ∷ []) }
    ensures err { OnErr result (set.new.keys ≡ set.old.keys) }
{
    match set.insert(name) {
        Ok(_) => Ok(()),
        Err(_) => Err(NoMemory),
    }
}
