// The final surface as a block, and the last word.
ghost use Rattle.std.specs.Prelude.{◌≡◌, ◌<◌, All, length};
ghost use Rattle.surf_base.specs.Emits.{Emits, outlet};
ghost use Rattle.surf_rules.specs.Names.{text_of};
ghost use Rattle.surf_command_runs.specs.Prints.{end_text, number_word};

use surf_base::{Outbox, Piece, Sink, WriteFault};
use surf_cells::{Named, print_rows};
use surf_lattice::Lattice;
use surf_rules::Names;
use surf_world::World;

// The last word: `stuck` where nothing can happen, else `limit`.
fn last_word<L: Lattice>(world: &World<L>) -> &'static [u8]
    ensures { result.now ≡ number_word world.now.surface world.now.names }
{
    if world.is_stuck() {
        b"stuck\n"
    } else {
        b"limit\n"
    }
}

/// Prints the state block of a world, and `stuck` or `limit`.
pub fn print_end<L: Lattice, K: Sink>(
    world: &World<L>,
    names: &Names,
    outbox: &mut Outbox,
    out: &mut K,
) -> Result<(), WriteFault>
    requires { All (λ k. k < length names.now) world.now.names }
    ensures { Emits (outlet (K.written out.old) outbox.old (K.faults out.old))
        (outlet (K.written out.new) outbox.new (K.faults out.new))
        (end_text (text_of names.now) world.now) result }
{
    let _count = world.site_count();
    let width = world.grid().width();
    let height = world.grid().height();
    outbox.put(out, b"!START_INIT_STATE\n")?;
    print_rows(&Named { world, names }, width, height, outbox, out)?;
    let word = last_word(world);
    outbox.put_pieces(out, &[Piece::Text(b"!END_INIT_STATE\n"), Piece::Text(word)])
}
