use plain_lists::Text;
use refusal_codes::{Refusal, Rule};
use std::alloc::Global;
use std::cmp::Ordering;
use std::test::Fail;

fn refusal(alloc: Global, kind: u8, name: &str, rule: Rule, place: u64) -> Result<Refusal, Fail> {
    Ok(Refusal {
        stratum: 1,
        kind,
        name: Text::from_string(String::from_str(alloc, name)?),
        rule,
        place,
    })
}

/// Whether the console's text of this refusal is this.
fn is_told(alloc: Global, refusal: &Refusal, text: &str) -> Result<bool, Fail> {
    Ok(refusal.text(alloc).ok().ok_or("memory")?.as_str() == text)
}

#[test]
fn texts_are_printed_with_rule_kind_name_and_place(rt: HostRuntime) -> Result<(), Fail> {
    let cubic = refusal(rt.alloc(), 3, "A", Rule::CubicNode, 181)?;
    assert!(rt; is_told(rt.alloc(), &cubic, "G2 CubicNode Raw A at 181")?);
    let empty = refusal(rt.alloc(), 0, "", Rule::UnexpectedEnd, 0)?;
    assert!(rt; is_told(rt.alloc(), &empty, "P3 UnexpectedEnd Tree at 0")?);
    Ok(())
}

#[test]
fn refusals_go_by_name_before_rule_and_place(rt: HostRuntime) -> Result<(), Fail> {
    let b = refusal(rt.alloc(), 3, "b", Rule::CubicNode, 300)?;
    let x = refusal(rt.alloc(), 3, "x", Rule::MissingKey, 100)?;
    let copy = x.copy(rt.alloc()).ok().ok_or("memory")?;
    assert!(rt; b.cmp(&x) == Ordering::Less && copy == x);
    Ok(())
}
