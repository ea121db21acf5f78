// Sets of texts.
ghost use Rattle.std.specs.Prelude.{◌≡◌, IfOk};
ghost use Rattle.std.specs.Str.{bytes_eq};
ghost use Rattle.surf_logic.specs.Order.{has};
ghost use Rattle.surf_rules.specs.Names.{with_text};
ghost use Rattle.surf_flatten.specs.Tables.{with_texts};

use surf_base::{NoMemory, Text};
use surf_rules::Names;

// Whether the text is there.
pub(crate) fn holds(names: &Names, text: &[u8]) -> bool
    ensures { result ≡ has bytes_eq names.now text.now }
{
    match names.find(text) {
        Some(_) => true,
        None => false,
    }
}

// Adds a text where it is new. There may also be too many texts.
pub(crate) fn add_text(names: &mut Names, text: &[u8]) -> Result<(), NoMemory>
    ensures { IfOk result (λ _. names.new ≡ with_text names.old text.now) }
{
    if names.len() == u32::MAX {
        return Err(NoMemory);
    }
    names.intern(text)?;
    Ok(())
}

pub(crate) fn add_texts(names: &mut Names, texts: &[Text]) -> Result<(), NoMemory>
    ensures { IfOk result (λ _. names.new ≡ with_texts names.old texts.now) }
{
    for text in texts {
        add_text(names, text.bytes())?;
    }
    Ok(())
}
