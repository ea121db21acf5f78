// Local rules by the number of live neighbours.
ghost use Rattle.std.specs.Prelude.{◌≡◌, true};
ghost use Rattle.surf_auto.specs.Locals.{is_degree};
ghost use Rattle.surf_auto.specs.Counts.{Counts, count_rule};

use crate::Local;
use std::marker::Model;

/// Births and survivals by counts of live neighbours. State 1 is live, and state 0 dead.
#[derive(Debug, Drop)]
pub struct CountLocal {
    degree: u32,
    birth: [bool; 7],
    survival: [bool; 7],
}

impl Model for CountLocal {
    ghost use Rattle.std.specs.Prelude.{◌≡◌, true};
    ghost use Rattle.surf_auto.specs.Locals.{is_degree};
    ghost use Rattle.surf_auto.specs.Counts.{Counts};

    ghost Value = { Counts };

    ghost view = { λ s. record { degree = s.degree; birth = s.birth; survival = s.survival } };

    ghost invariant = { λ s. is_degree s.degree ≡ true };
}

impl CountLocal {
    /// A dead cell becomes live where `birth` holds at the number of its live neighbours, and a live
    /// one stays live where `survival` does. The degree is 4 or 6.
    pub fn new(degree: u32, birth: [bool; 7], survival: [bool; 7]) -> CountLocal
        requires { is_degree degree ≡ true }
        ensures { result ≡ record { degree = degree; birth = birth; survival = survival } }
    {
        CountLocal {
            degree,
            birth,
            survival,
        }
    }
}

impl Local for CountLocal {
    ghost rule = { count_rule };

    fn degree(&self) -> u32 {
        self.degree
    }

    fn phases(&self) -> u32 {
        1
    }

    fn states(&self, _phase: u32) -> u32 {
        2
    }

    fn start(&self, _phase: u32) -> u32 {
        0
    }

    fn accs(&self, _phase: u32, reads: u32) -> u32 {
        // shows the proof that the degree is small
        let _ = &self.degree;
        reads + 1
    }

    fn add(&self, _phase: u32, acc: u32, _direction: u32, state: u32) -> u32 {
        let _ = &self.degree;
        if state == 1 { acc + 1 } else { acc }
    }

    fn finish(&self, _phase: u32, own: u32, acc: u32) -> u32 {
        let table = if own == 1 {
            &self.survival
        } else {
            &self.birth
        };
        if table[acc as usize] { 1 } else { 0 }
    }
}
