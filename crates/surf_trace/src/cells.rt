// Whether all names of a world are those of cells and their frame.
ghost use Rattle.std.specs.Prelude.{◌↔◌, ◌<◌, IfSome, IsTrue, All, length};
ghost use Rattle.surf_world.specs.Renamings.{AreBelow, RuleBelow};
ghost use Rattle.surf_world.specs.Worlds.{rule_of};
ghost use Rattle.surf_trace.specs.Observations.{AllNamed, RuleNamed};
ghost use Rattle.surf_trace.specs.Sights.{IsTold};

use crate::sight::{Sight, sight_in};
use surf_lattice::Lattice;
use surf_rules::Rule;
use surf_world::World;

fn is_told(sights: &[Sight], name: u32) -> bool
    requires { name < length sights.now }
    ensures { IsTrue result ↔ IsTold sights.now name }
{
    !matches!(sight_in(sights, name), Sight::Other)
}

fn is_told_if_some(sights: &[Sight], name: Option<u32>) -> bool
    requires { IfSome name (λ m. m < length sights.now) }
    ensures { IsTrue result ↔ IfSome name (IsTold sights.now) }
{
    match name {
        Some(name) => is_told(sights, name),
        None => true,
    }
}

fn is_rule_told(sights: &[Sight], rule: &Rule) -> bool
    requires { RuleBelow (length sights.now) (rule_of rule.now) }
    ensures { IsTrue result ↔ RuleNamed (IsTold sights.now) (rule_of rule.now) }
{
    is_told(sights, rule.left)
        && is_told_if_some(sights, rule.right)
        && is_told(sights, rule.left_after)
        && is_told_if_some(sights, rule.right_after)
}

fn are_rules_told<L: Lattice>(sights: &[Sight], world: &World<L>) -> bool
    requires { All (RuleBelow (length sights.now)) world.now.surface.rules }
    ensures { IsTrue result ↔ All (RuleNamed (IsTold sights.now)) world.now.surface.rules }
{
    let book = world.book();
    for number in 0..book.len() {
        if !is_rule_told(sights, book.rule(number)) {
            return false;
        }
    }
    true
}

fn are_names_told<L: Lattice>(sights: &[Sight], world: &World<L>) -> bool
    requires { All (λ m. m < length sights.now) world.now.names }
    ensures { IsTrue result ↔ All (IsTold sights.now) world.now.names }
{
    for place in 0..world.site_count() {
        if !is_told(sights, world.name_at(place)) {
            return false;
        }
    }
    true
}

/// Whether each name in the rules and at the sites is a cell's or the frame's.
pub(crate) fn are_all_told<L: Lattice>(sights: &[Sight], world: &World<L>) -> bool
    requires { AreBelow (length sights.now) world.now.surface world.now.names }
    ensures { IsTrue result
        ↔ AllNamed (IsTold sights.now) world.now.surface world.now.names }
{
    are_rules_told(sights, world) && are_names_told(sights, world)
}
