//! Kinds of sites, each in one byte.
ghost use Rattle.std.specs.Prelude.{◌<◌, ◌≡◌};
ghost use Rattle.surf_settle.specs.Indices.{kind_index};

use std::marker::Model;
use surf_tiles::Kind;

/// All kinds, each at its index.
pub static KINDS: [Kind; 32] = [
    Kind::Empty,
    Kind::Input,
    Kind::Value(false),
    Kind::Value(true),
    Kind::Wire,
    Kind::A,
    Kind::B,
    Kind::H,
    Kind::V,
    Kind::P,
    Kind::Q,
    Kind::Centre,
    Kind::Gate1(false, false),
    Kind::Gate1(false, true),
    Kind::Gate1(true, false),
    Kind::Gate1(true, true),
    Kind::Gate2(false, false, false, false),
    Kind::Gate2(false, false, false, true),
    Kind::Gate2(false, false, true, false),
    Kind::Gate2(false, false, true, true),
    Kind::Gate2(false, true, false, false),
    Kind::Gate2(false, true, false, true),
    Kind::Gate2(false, true, true, false),
    Kind::Gate2(false, true, true, true),
    Kind::Gate2(true, false, false, false),
    Kind::Gate2(true, false, false, true),
    Kind::Gate2(true, false, true, false),
    Kind::Gate2(true, false, true, true),
    Kind::Gate2(true, true, false, false),
    Kind::Gate2(true, true, false, true),
    Kind::Gate2(true, true, true, false),
    Kind::Gate2(true, true, true, true),
];

// The index of a kind.
fn kind_index(kind: Kind) -> u8
    ensures is { result ≡ kind_index kind }
    ensures below { result < 32 }
{
    match kind {
        Kind::Empty => 0,
        Kind::Input => 1,
        Kind::Value(value) => 2 + u8::from(value),
        Kind::Wire => 4,
        Kind::A => 5,
        Kind::B => 6,
        Kind::H => 7,
        Kind::V => 8,
        Kind::P => 9,
        Kind::Q => 10,
        Kind::Centre => 11,
        Kind::Gate1(zero, one) => 12 + 2 * u8::from(zero) + u8::from(one),
        Kind::Gate2(t00, t01, t10, t11) => {
            16 + 8 * u8::from(t00) + 4 * u8::from(t01) + 2 * u8::from(t10) + u8::from(t11)
        }
    }
}

/// A kind as one byte, its index.
#[derive(Drop)]
pub struct KindByte {
    index: u8,
}

impl Model for KindByte {
    ghost use Rattle.std.specs.Prelude.{◌<◌};
    ghost use Rattle.surf_tiles.specs.declared.kind.Kind.{Kind};
    ghost use Rattle.surf_settle.specs.Indices.{kind_listed};

    ghost Value = { Kind };

    ghost view = { λ k. kind_listed k.index };

    ghost invariant = { λ k. k.index < 32 };
}

impl KindByte {
    /// The byte of a kind.
    pub fn new(kind: Kind) -> KindByte
        ensures { result ≡ kind }
    {
        KindByte {
            index: kind_index(kind),
        }
    }

    /// The kind.
    #[inline(always)]
    pub fn kind(&self) -> Kind
        ensures { result ≡ self.now }
    {
        KINDS[self.index as usize]
    }

    /// The index of the kind.
    #[inline(always)]
    pub fn index(&self) -> usize
        ensures is { result ≡ kind_index self.now }
        ensures below { result < 32 }
    {
        self.index as usize
    }

    /// The same byte once more.
    #[inline(always)]
    pub fn copy(&self) -> KindByte
        ensures { result ≡ self.now }
    {
        KindByte { index: self.index }
    }
}
