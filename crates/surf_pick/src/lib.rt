//! Weights, of which one is found by a number below their sum, and draws of such numbers.
//!
//! A [`Picker`] is seen as a list of weights. Its `find` is exact: the first place at which the
//! running sum exceeds the number. [`PlainPicker`] is the yardstick, and [`TreePicker`] finds and
//! sets a weight in a logarithmic number of steps. [`WidePicker`] does so in fewer, where the sum
//! is below 2^64. The draws of a [`Draw`] are fixed by its seed: its contract says which words of
//! the generator each draw takes.
#![tactic(auto)]

mod draw;
mod picker;
mod plain;
mod tree;
mod wide;

pub use draw::Draw;
pub use picker::Picker;
pub use plain::PlainPicker;
pub use tree::TreePicker;
pub use wide::WidePicker;
