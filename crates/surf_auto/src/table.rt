// Local rules by the sum of the neighbours' weights.
ghost use Rattle.std.specs.Prelude.{◌≡◌};
ghost use Rattle.surf_auto.specs.Tables.{IsTable, Table, greatest, table_rule};

use crate::Local;
use std::marker::Model;

/// Next states by the own state and the sum of the neighbours' weights.
#[derive(Debug, Drop)]
pub struct TableLocal {
    degree: u32,
    heaviest: u32,
    weights: Vec<u32>,
    next: Vec<u32>,
}

impl Model for TableLocal {
    ghost use Rattle.std.specs.Prelude.{◌≡◌};
    ghost use Rattle.surf_auto.specs.Tables.{IsTable, Table, greatest};

    ghost Value = { Table };

    ghost view = { λ s.
        record { degree = s.degree; weights = s.weights.items; next = s.next.items } };

    ghost invariant = { λ s.
        IsTable (record { degree = s.degree; weights = s.weights.items; next = s.next.items })
        × (s.heaviest ≡ greatest s.weights.items) };
}

impl TableLocal {
    /// The degree is 4 or 6. There are 1 to 256 weights of at most 255, one per state. `next` has for
    /// each own state from 0 the next state for each sum from 0 to the degree times the greatest
    /// weight.
    pub fn new(degree: u32, weights: Vec<u32>, next: Vec<u32>) -> TableLocal
        requires { IsTable (record {
          degree = degree;
          weights = weights.items;
          next = next.items;
        }) }
        ensures { result ≡ record { degree = degree; weights = weights.items; next = next.items } }
    {
        let heaviest = greatest_of(&weights);
        TableLocal {
            degree,
            heaviest,
            weights,
            next,
        }
    }
}

fn greatest_of(weights: &[u32]) -> u32
    ensures { result ≡ greatest weights.now }
{
    let mut found = 0;
    for weight in weights {
        if *weight > found {
            found = *weight;
        }
    }
    found
}

impl Local for TableLocal {
    ghost rule = { table_rule };

    fn degree(&self) -> u32 {
        self.degree
    }

    fn phases(&self) -> u32 {
        1
    }

    fn states(&self, _phase: u32) -> u32 {
        self.weights.len() as u32
    }

    fn start(&self, _phase: u32) -> u32 {
        0
    }

    fn accs(&self, _phase: u32, reads: u32) -> u32 {
        reads * self.heaviest + 1
    }

    fn add(&self, _phase: u32, acc: u32, _direction: u32, state: u32) -> u32 {
        acc + self.weights[state as usize]
    }

    fn finish(&self, _phase: u32, own: u32, acc: u32) -> u32 {
        let row = self.degree * self.heaviest + 1;
        self.next[(own * row + acc) as usize]
    }
}
