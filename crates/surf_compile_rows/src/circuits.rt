// The surface of an inverter, step by step and at once.
use std::test::Fail;
use surf_blif::{eval_is_of_text, read_blif};
use surf_circuit::{compile, layouts_compute, surface_is_one};
use surf_logic::naming_laws;
use surf_netlist::decompose;
use surf_place::Drawing;
use surf_route::{Route, Seal};

const INVERTER: &[u8] = b".inputs a\n.outputs b\n.names a b\n0 1\n";

#[test]
fn inverters_are_laid_out(rt: HostRuntime) -> Result<(), Fail> {
    eval_is_of_text();
    naming_laws();
    layouts_compute();
    let circuit = read_blif(rt.alloc(), INVERTER)?;
    assert!(rt; circuit.cost() <= 1000);
    let netlist = decompose(rt.alloc(), &circuit)?;
    assert!(rt; !netlist.outputs().is_empty());
    let placed = Drawing::new(netlist)
        .place(rt.alloc())
        .map_err(|refused| refused.1)?;
    let routed = placed.route(rt.alloc()).map_err(|refused| refused.1)?;
    let layout = routed.seal(rt.alloc()).map_err(|refused| refused.1)?;
    assert!(rt; (layout.width(), layout.height(), layout.events()) == (6, 12, 18));
    Ok(())
}

#[test]
fn inverters_are_compiled(rt: HostRuntime) -> Result<(), Fail> {
    surface_is_one();
    let circuit = read_blif(rt.alloc(), INVERTER)?;
    let (manifest, legend) = compile(rt.alloc(), &circuit)?;
    assert!(rt; manifest.rules().len() == 122 && legend.events == 18);
    Ok(())
}
