// Patterns and tables that are read with a margin, and their steps.
use std::alloc::AllocError;
use std::test::Fail;
use surf_auto::{is_table, local_laws, step};
use surf_life::{advance_moore, moore_laws};
use surf_rle::{Pattern, read_rle};
use surf_table::{read_table, rules_by_weights};

#[test]
fn patterns_step(rt: HostRuntime) -> Result<(), Fail> {
    local_laws();
    let text = b"x = 1, y = 1, rule = B1/SV\no!";
    assert!(rt; !is_table(text));
    match read_rle(rt.alloc(), text, 1).map_err(|_| "refused")? {
        Pattern::Count(mut found) => {
            found.advance(rt.alloc(), 1).map_err(|_| AllocError)?;
            assert!(rt; found.cells.as_slice() == [0, 1, 0, 1, 0, 1, 0, 1, 0].as_slice());
        }
        Pattern::Moore(_) => Err::<(), &str>("eight neighbours")?,
    }
    Ok(())
}

// A cell that is born beside one of eight.
#[test]
fn patterns_of_eight_neighbours_step(rt: HostRuntime) -> Result<(), Fail> {
    moore_laws();
    let text = b"x = 1, y = 1, rule = B1/S\no!";
    assert!(rt; !is_table(text));
    match read_rle(rt.alloc(), text, 1).map_err(|_| "refused")? {
        Pattern::Moore(mut found) => {
            let next = step(rt.alloc(), &found).map_err(|_| AllocError)?;
            assert!(rt; found.edge == 0);
            advance_moore(rt.alloc(), &mut found, 1).map_err(|_| AllocError)?;
            assert!(rt; found.cells.as_slice() == [1, 1, 1, 1, 0, 1, 1, 1, 1].as_slice());
            assert!(rt; found.cells.as_slice() == next.as_slice());
        }
        Pattern::Count(_) => Err::<(), &str>("four neighbours")?,
    }
    Ok(())
}

#[test]
fn tables_step(rt: HostRuntime) -> Result<(), Fail> {
    rules_by_weights();
    let text =
        b"automaton 1\ndegree 4\nstates 2\nedge 0\nweights 0 0\nnext 0 1\nnext 1 0\nsize 1 1\nrow 1\nend\n";
    assert!(rt; is_table(text));
    let found = read_table(rt.alloc(), text, 1).map_err(|_| "refused")?;
    let next = step(rt.alloc(), &found).map_err(|_| AllocError)?;
    assert!(rt; next.as_slice() == [1, 1, 1, 1, 0, 1, 1, 1, 1].as_slice());
    Ok(())
}
