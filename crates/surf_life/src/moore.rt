// Counts of live cells among eight neighbours, by half generations.
ghost use Rattle.std.specs.Prelude.{◌≡◌, ◌<◌, ◌≤◌};
ghost use Rattle.surf_auto.specs.Counts.{Counts, looked_up};
ghost use Rattle.surf_life.specs.Halves.{moore_rule};

use std::marker::Model;
use surf_auto::Local;

/// Births and survivals by counts of live cells among eight neighbours. State 1 is live, and state
/// 0 dead.
#[derive(Debug, Drop)]
pub struct MooreLocal {
    birth: [bool; 9],
    survival: [bool; 9],
}

impl Model for MooreLocal {
    ghost use Rattle.surf_auto.specs.Counts.{Counts};

    ghost Value = { Counts };

    ghost view = { λ s. record { degree = 8; birth = s.birth; survival = s.survival } };
}

impl MooreLocal {
    /// A dead cell becomes live where `birth` holds at the number of live cells among its eight
    /// neighbours, and a live one stays live where `survival` does.
    pub fn new(birth: [bool; 9], survival: [bool; 9]) -> MooreLocal
        ensures { result ≡ record { degree = 8; birth = birth; survival = survival } }
    {
        MooreLocal { birth, survival }
    }

    /// The next state by the own state and the count of live neighbours, at most 8.
    pub fn next(&self, own: u32, count: u32) -> u32
        requires { count ≤ 8 }
        ensures next { result ≡ looked_up self.now own count }
        ensures few { result < 2 }
    {
        let table = if own == 1 {
            &self.survival
        } else {
            &self.birth
        };
        if table[count as usize] { 1 } else { 0 }
    }
}

impl Local for MooreLocal {
    ghost rule = { moore_rule };

    fn degree(&self) -> u32 {
        4
    }

    fn phases(&self) -> u32 {
        2
    }

    fn states(&self, phase: u32) -> u32 {
        if phase == 0 { 2 } else { 6 }
    }

    fn start(&self, _phase: u32) -> u32 {
        0
    }

    fn accs(&self, phase: u32, reads: u32) -> u32 {
        if phase == 0 {
            1 + reads.min(2)
        } else {
            1 + 3 * reads.saturating_sub(2)
        }
    }

    fn add(&self, phase: u32, acc: u32, direction: u32, state: u32) -> u32 {
        if phase == 0 {
            // west and east
            if direction < 2 && state == 1 {
                acc + 1
            } else {
                acc
            }
        } else if direction < 2 {
            acc
        } else {
            // the rows of three north and south
            acc + (state / 3 + state % 3)
        }
    }

    fn finish(&self, phase: u32, own: u32, acc: u32) -> u32 {
        if phase == 0 {
            own * 3 + acc
        } else {
            self.next(own / 3, own % 3 + acc)
        }
    }
}
