// How a cell reads its neighbours, one after another.
ghost use Rattle.std.specs.Prelude.{◌≡◌, ◌*◌, ◌+◌, ◌<◌, ◌≤◌, ◌^◌, true};
ghost use Rattle.surf_auto.specs.Locals.{following, is_degree, preceding};
ghost use Rattle.surf_sync.specs.Codes.{IsCode, OpenBy, beside, fields_by, next_by, phase, protocol, read};

use crate::Code;
use surf_auto::Local;

/// The phase of a generation.
pub fn phase_of<L: Local>(local: &L, generation: u32) -> u32
    ensures phase { result ≡ phase (L.rule local.now) generation }
    ensures within { result < (L.rule local.now).phases }
{
    // shows the proof that there is a phase
    let _degree = local.degree();
    generation % local.phases()
}

/// How many values the generation of a code has.
pub fn field_count(phases: u32, last: Option<u32>) -> u32
    requires phases { phases ≤ 16 }
    requires last { fields_by last phases < 2 ^ 32 }
    ensures { result ≡ fields_by last phases }
{
    match last {
        None => 3 * phases,
        Some(last) => last + 1,
    }
}

/// The generation of a cell that was one behind.
pub fn next_generation(phases: u32, last: Option<u32>, generation: u32) -> u32
    requires phases { phases ≤ 16 }
    requires generation { generation + 1 < 2 ^ 32 }
    ensures { result ≡ next_by last phases generation }
{
    if last.is_none() && generation + 1 == 3 * phases {
        0
    } else {
        generation + 1
    }
}

/// The colour of the neighbour in a direction of a site of this colour.
#[tactic(auto, unfolding(crate::specs::Codes::beside))]
pub fn colour_beside(degree: u32, colour: u32, direction: u32) -> u32
    requires degree { is_degree degree ≡ true }
    requires colour { colour ≤ degree }
    requires direction { direction < degree }
    ensures colour { result ≡ beside degree colour direction }
    ensures within { result ≤ degree }
{
    let ahead = match direction {
        0 => degree,
        1 => degree + 2,
        2 => degree - 1,
        3 => degree + 3,
        4 => degree - 2,
        _ => degree + 4,
    };
    (colour + ahead) % (degree + 1)
}

/// The code of a cell after it read this state in its next direction. At the last direction it
/// comes to the next generation.
pub fn read<L: Local>(local: &L, last: Option<u32>, reader: &Code, state: u32) -> Code
    requires code { IsCode (L.rule local.now) last reader.now }
    requires opened { OpenBy last reader.now.generation }
    requires few { fields_by last (L.rule local.now).phases < 2 ^ 32 }
    requires state { let R = L.rule local.now in
        state < R.states (phase R reader.now.generation) }
    ensures read { result ≡ read (protocol (L.rule local.now) 0 last) reader.now state }
    ensures code { IsCode (L.rule local.now) last result }
{
    let phase = phase_of(local, reader.generation);
    let acc = local.add(phase, reader.acc, reader.reads, state);
    if reader.reads < local.degree() - 1 {
        return Code {
            current: reader.current,
            generation: reader.generation,
            colour: reader.colour,
            previous: reader.previous,
            reads: reader.reads + 1,
            acc,
        };
    }
    let generation = next_generation(local.phases(), last, reader.generation);
    Code {
        current: local.finish(phase, reader.current, acc),
        generation,
        colour: reader.colour,
        previous: reader.current,
        reads: 0,
        acc: local.start(phase_of(local, generation)),
    }
}

/// The phase before this one: the last comes before phase 0.
pub fn phase_before<L: Local>(local: &L, phase: u32) -> u32
    requires { phase < (L.rule local.now).phases }
    ensures phase { result ≡ preceding (L.rule local.now).phases phase }
    ensures within { result < (L.rule local.now).phases }
{
    if phase == 0 {
        local.phases() - 1
    } else {
        phase - 1
    }
}

/// The phase after this one: phase 0 follows the last.
pub fn phase_after<L: Local>(local: &L, phase: u32) -> u32
    requires { phase < (L.rule local.now).phases }
    ensures phase { result ≡ following (L.rule local.now).phases phase }
    ensures within { result < (L.rule local.now).phases }
{
    // shows the proof that the phases are few
    let _degree = local.degree();
    if phase + 1 == local.phases() {
        0
    } else {
        phase + 1
    }
}
