// Manifests that are read, made, changed and printed.
use std::test::Fail;
use surf_lattice::{Grid, GridKind, Site};
use surf_manifest::{Manifest, read_is_well_formed, read_manifest, steps_are_grammar};
use surf_manifest_print::{print_is_kept, print_is_read, print_manifest};
use surf_rules::{Names, Rule};

const SMALL: &[u8] =
    b"!START_TRANSITION_RULES\nA -> B\n!END_TRANSITION_RULES\n!START_INIT_STATE\nA B\n!END_INIT_STATE\n";

#[test]
fn becomes_a_world(rt: HostRuntime) -> Result<(), Fail> {
    read_is_well_formed();
    let manifest = read_manifest(rt.alloc(), SMALL)?;
    let (world, names) = manifest.into_world(rt.alloc())?;
    assert!(rt; names.find(b"B") == Some(world.at(Site { x: 1, y: 0 })));
    Ok(())
}

#[test]
fn is_made_changed_and_printed(rt: HostRuntime) -> Result<(), Fail> {
    steps_are_grammar();
    print_is_read();
    print_is_kept();
    let mut names = Names::new(rt.alloc());
    let a = names.intern(b"A")?;
    let grid = Grid::new(GridKind::Hex, false, 2, 1)?;
    let start = vec![in rt.alloc(); a, a]?;
    let rules: Vec<Rule> = Vec::new(rt.alloc());
    let mut manifest = Manifest::assemble(rt.alloc(), grid, names, rules, start);
    let b = manifest.intern(b"B")?;
    manifest.put(Site { x: 1, y: 0 }, b);
    assert!(rt; manifest.start() == [0, 1].as_slice());
    let text = print_manifest(rt.alloc(), &manifest, None)?;
    assert!(rt; text.ends_with(b"A B\n!END_INIT_STATE\n"));
    Ok(())
}
