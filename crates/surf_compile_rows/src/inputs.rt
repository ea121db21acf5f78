// Inputs that are set at the places of a legend.
use std::test::Fail;
use surf_circuit::{circuits_are_set, sets_keep_form};
use surf_inputs::set_inputs;
use surf_manifest::read_manifest;
use surf_manifest_print::{legend_is_read, read_legend};

const SURFACE: &[u8] =
    b"# surf input a 0 0\n# surf events 0\n!START_TRANSITION_RULES\n!END_TRANSITION_RULES\n!START_INIT_STATE\n?\n!END_INIT_STATE\n";

#[test]
fn inputs_are_set(rt: HostRuntime) -> Result<(), Fail> {
    legend_is_read();
    circuits_are_set();
    sets_keep_form();
    let mut manifest = read_manifest(rt.alloc(), SURFACE)?;
    let legend = read_legend(rt.alloc(), SURFACE)?;
    assert!(rt; legend.inputs.len() == 1);
    assert!(rt; set_inputs(rt.alloc(), &mut manifest, &legend, &[true]).is_ok());
    assert!(rt; manifest.start() != [0].as_slice());
    Ok(())
}
