// One element more, or no memory.
ghost use Rattle.std.specs.Prelude.{◌≡◌, ◌++◌, ◌∷◌, [], OnOk};

use surf_base::NoMemory;

/// Puts an element at the end of a list.
pub fn push<T: Copy>(out: &mut Vec<T>, element: T) -> Result<(), NoMemory>
    ensures { OnOk result (out.new.items ≡ out.old.items ++ element ∷ []) }
{
    out.push(element).map_err(|_| NoMemory)
}
