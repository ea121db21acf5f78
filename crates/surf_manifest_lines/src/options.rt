// Options that are kept as text.
use surf_base::Text;

/// An option that is kept as text.
#[derive(Debug, Drop)]
pub struct OptionLine {
    pub key: Text,
    pub value: Text,
}
