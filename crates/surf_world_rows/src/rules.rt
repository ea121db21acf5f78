// Names and their numbers, and rules by left sides.
ghost use Rattle.std.specs.Prelude.{◌≤◌};

use std::alloc::Global;
use std::test::Fail;
use surf_rules::{Names, Rule, RuleBook};

#[test]
fn numbers_texts(rt: HostRuntime) -> Result<(), Fail> {
    let mut names = Names::new(rt.alloc());
    assert!(rt; names.intern(b"a")? == 0);
    assert!(rt; names.intern(b"b")? == 1);
    assert!(rt; names.intern(b"a")? == 0);
    assert!(rt; names.find(b"b") == Some(1));
    Ok(())
}

fn rule(rate: u64, left: u32, right: Option<u32>) -> Rule
    requires { rate ≤ 1000000000000 }
    ensures { result.rate ≤ 1000000000000 }
{
    Rule {
        rate,
        left,
        right,
        left_after: 8,
        right_after: right.map(|_| 9),
    }
}

/// 7 alone at rate 2, and beside a 5 at rate 3.
pub fn rules(alloc: Global) -> Result<RuleBook, Fail> {
    let rules = vec![in alloc; rule(3, 7, Some(5)), rule(2, 7, None)]?;
    Ok(RuleBook::new(alloc, rules)?)
}

#[test]
fn finds_rules_by_left_sides(rt: HostRuntime) -> Result<(), Fail> {
    let book = rules(rt.alloc())?;
    assert!(rt; book.alone(7) == [1].as_slice());
    assert!(rt; book.pair(7, 5) == [0].as_slice());
    assert!(rt; book.pair(5, 7).is_empty());
    Ok(())
}
