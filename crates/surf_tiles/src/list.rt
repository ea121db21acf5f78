//! The list of all reactions.
ghost use Rattle.std.specs.Prelude.{◌≡◌, ◌++◌, ◌∷◌, [], IfOk, OnOk};
ghost use Rattle.surf_tiles.specs.Reactions.{first_reads, for_each_bit, for_each_mark, for_each_port, for_each_table, reactions};

use crate::reaction::Reaction;
use crate::state::Port;
use std::alloc::Global;
use surf_base::NoMemory;

const PORTS: [Port; 4] = [Port::AtA, Port::AtB, Port::AtH, Port::AtV];

// The values of a one-input gate, and of either half of a two-input gate.
const TABLES: [(bool, bool); 4] = [(false, false), (false, true), (true, false), (true, true)];

// A slot of a centre.
const MARKS: [Option<bool>; 3] = [None, Some(false), Some(true)];

/// All reactions, in the order of the rules.
pub fn all_reactions(alloc: Global) -> Result<Vec<Reaction>, NoMemory>
    ensures { IfOk result (λ list. list.items ≡ reactions) }
{
    let mut list = with_room(alloc)?;
    put_wires(&mut list)?;
    put_ports(&mut list)?;
    put_one_gates(&mut list)?;
    put_across(&mut list)?;
    put_down(&mut list)?;
    put_across_out(&mut list)?;
    put_down_out(&mut list)?;
    put_two_gates(&mut list)?;
    put_last_a(&mut list)?;
    put_last_b(&mut list)?;
    Ok(list)
}

// An empty list with room for all.
fn with_room(alloc: Global) -> Result<Vec<Reaction>, NoMemory>
    ensures { IfOk result (λ list. list.items ≡ []) }
{
    Vec::with_capacity(alloc, 122).map_err(|_| NoMemory)
}

fn put_pair(list: &mut Vec<Reaction>, zero: Reaction, one: Reaction) -> Result<(), NoMemory>
    ensures { OnOk result (list.new.items ≡ list.old.items ++ zero ∷ one ∷ []) }
{
    list.extend_from_slice(&[zero, one]).map_err(|_| NoMemory)
}

fn put_wires(list: &mut Vec<Reaction>) -> Result<(), NoMemory>
    ensures { OnOk result (list.new.items ≡ list.old.items ++ for_each_bit Reaction.WireReads) }
{
    put_pair(
        list,
        Reaction::WireReads { value: false },
        Reaction::WireReads { value: true },
    )
}

fn put_ports(list: &mut Vec<Reaction>) -> Result<(), NoMemory>
    ensures { let each = for_each_port (λ port. for_each_bit (Reaction.PortReads port)) in
        OnOk result (list.new.items ≡ list.old.items ++ each) }
{
    for port in PORTS {
        put_pair(
            list,
            Reaction::PortReads { port, value: false },
            Reaction::PortReads { port, value: true },
        )?;
    }
    Ok(())
}

fn put_one_gates(list: &mut Vec<Reaction>) -> Result<(), NoMemory>
    ensures { let each = for_each_table (λ p q. for_each_bit (Reaction.OneReads p q)) in
        OnOk result (list.new.items ≡ list.old.items ++ each) }
{
    for (zero, one) in TABLES {
        put_pair(
            list,
            Reaction::OneReads {
                zero,
                one,
                value: false,
            },
            Reaction::OneReads {
                zero,
                one,
                value: true,
            },
        )?;
    }
    Ok(())
}

fn put_across(list: &mut Vec<Reaction>) -> Result<(), NoMemory>
    ensures { OnOk result (list.new.items ≡ list.old.items ++ for_each_mark Reaction.AcrossReads) }
{
    for down in MARKS {
        put_pair(
            list,
            Reaction::AcrossReads { down, value: false },
            Reaction::AcrossReads { down, value: true },
        )?;
    }
    Ok(())
}

fn put_down(list: &mut Vec<Reaction>) -> Result<(), NoMemory>
    ensures { OnOk result (list.new.items ≡ list.old.items ++ for_each_mark Reaction.DownReads) }
{
    for across in MARKS {
        put_pair(
            list,
            Reaction::DownReads {
                across,
                value: false,
            },
            Reaction::DownReads {
                across,
                value: true,
            },
        )?;
    }
    Ok(())
}

fn put_across_out(list: &mut Vec<Reaction>) -> Result<(), NoMemory>
    ensures { OnOk result (list.new.items ≡ list.old.items ++ for_each_mark Reaction.PReads) }
{
    for down in MARKS {
        put_pair(
            list,
            Reaction::PReads { down, value: false },
            Reaction::PReads { down, value: true },
        )?;
    }
    Ok(())
}

fn put_down_out(list: &mut Vec<Reaction>) -> Result<(), NoMemory>
    ensures { OnOk result (list.new.items ≡ list.old.items ++ for_each_mark Reaction.QReads) }
{
    for across in MARKS {
        put_pair(
            list,
            Reaction::QReads {
                across,
                value: false,
            },
            Reaction::QReads {
                across,
                value: true,
            },
        )?;
    }
    Ok(())
}

fn put_two_gates(list: &mut Vec<Reaction>) -> Result<(), NoMemory>
    ensures { let each = for_each_table (λ p q. for_each_table (first_reads p q)) in
        OnOk result (list.new.items ≡ list.old.items ++ each) }
{
    for (t00, t01) in TABLES {
        put_half(list, t00, t01)?;
    }
    Ok(())
}

// The gates with these values where the first input is false.
fn put_half(list: &mut Vec<Reaction>, t00: bool, t01: bool) -> Result<(), NoMemory>
    ensures { let each = for_each_table (first_reads t00 t01) in
        OnOk result (list.new.items ≡ list.old.items ++ each) }
{
    for (t10, t11) in TABLES {
        put_first_reads(list, t00, t01, t10, t11)?;
    }
    Ok(())
}

fn put_first_reads(
    list: &mut Vec<Reaction>,
    t00: bool,
    t01: bool,
    t10: bool,
    t11: bool,
) -> Result<(), NoMemory>
    ensures { OnOk result (list.new.items ≡ list.old.items ++ first_reads t00 t01 t10 t11) }
{
    let by_a = |value| Reaction::GateReadsA {
        t00,
        t01,
        t10,
        t11,
        value,
    };
    let by_b = |value| Reaction::GateReadsB {
        t00,
        t01,
        t10,
        t11,
        value,
    };
    put_pair(list, by_a(false), by_a(true))?;
    put_pair(list, by_b(false), by_b(true))
}

fn put_last_a(list: &mut Vec<Reaction>) -> Result<(), NoMemory>
    ensures { let each = for_each_table (λ p q. for_each_bit (Reaction.ReadsLastA p q)) in
        OnOk result (list.new.items ≡ list.old.items ++ each) }
{
    for (zero, one) in TABLES {
        put_pair(
            list,
            Reaction::ReadsLastA {
                zero,
                one,
                value: false,
            },
            Reaction::ReadsLastA {
                zero,
                one,
                value: true,
            },
        )?;
    }
    Ok(())
}

fn put_last_b(list: &mut Vec<Reaction>) -> Result<(), NoMemory>
    ensures { let each = for_each_table (λ p q. for_each_bit (Reaction.ReadsLastB p q)) in
        OnOk result (list.new.items ≡ list.old.items ++ each) }
{
    for (zero, one) in TABLES {
        put_pair(
            list,
            Reaction::ReadsLastB {
                zero,
                one,
                value: false,
            },
            Reaction::ReadsLastB {
                zero,
                one,
                value: true,
            },
        )?;
    }
    Ok(())
}
