// Why models mean no circuit.
ghost use Rattle.std.specs.Prelude.{◌≡◌, IfOk, IfSome};
ghost use Rattle.surf_flatten.specs.Refusals.{fault_of, told};

use std::alloc::Global;
use surf_base::{NoMemory, Text};
use thiserror::Error;

/// Why models mean no circuit of at most 1,000 parts. A number is a line, a `Text` a name.
#[derive(Debug, Drop, Error)]
pub enum FlattenError {
    /// The first model with the name of an earlier one.
    #[error("two models have one name")]
    ModelTwice(u64, Text),
    /// The line that comes first among those with one of these three faults. It places a model of
    /// this name, and there is none.
    #[error("no model has this name")]
    UnknownModel(u64, Text),
    /// It binds this formal, which is no signal of the model to the outside or is bound before.
    #[error("a formal is bound that can't be")]
    BadFormal(u64, Text),
    /// It leaves out this input of the model.
    #[error("an input is not bound")]
    Unconnected(u64, Text),
    /// The first line that places a model which reaches the line's own. The name is its model's.
    #[error("a model places itself")]
    Recursive(u64, Text),
    /// The circuit costs so much, or more where it is the greatest number.
    #[error("the circuit costs too much")]
    TooLarge(u128),
    #[error("out of memory")]
    NoMemory,
}

// The faults that tell a line and a name.
#[derive(Clone, Copy, Debug, PartialEq, Eq)]
pub(crate) enum Kind {
    ModelTwice,
    UnknownModel,
    BadFormal,
    Unconnected,
    Recursive,
}

// A text of one's own.
pub(crate) fn copied(alloc: Global, text: &[u8]) -> Result<Text, NoMemory>
    ensures { IfOk result (λ t. t ≡ text.now) }
{
    let bytes = text.to_vec(alloc).map_err(|_| NoMemory)?;
    Ok(Text::new(bytes))
}

// The refusal for a fault, or want of memory.
pub(crate) fn refusal(alloc: Global, kind: Kind, line: u64, name: &[u8]) -> FlattenError
    ensures { IfSome (told result) (λ f. f ≡ fault_of kind line name.now) }
{
    let name = match copied(alloc, name) {
        Ok(name) => name,
        Err(_) => return FlattenError::NoMemory,
    };
    match kind {
        Kind::ModelTwice => FlattenError::ModelTwice(line, name),
        Kind::UnknownModel => FlattenError::UnknownModel(line, name),
        Kind::BadFormal => FlattenError::BadFormal(line, name),
        Kind::Unconnected => FlattenError::Unconnected(line, name),
        Kind::Recursive => FlattenError::Recursive(line, name),
    }
}
