//! Tests of texts, lists and tables: every call, with enough memory.

use bb_basis::{IdSet, Items, Names, Table, Text};
use std::test::Fail;

#[test]
fn texts_and_lists(rt: HostRuntime) -> Result<(), Fail> {
    let text = Text::from_str(rt.alloc(), "hail")?;
    assert_eq!(rt; text.as_str(), "hail");
    assert_eq!(rt; text.len(), 4);
    assert!(rt; !text.is_empty());
    let copy = Text::new(rt.alloc(), String::from_str(rt.alloc(), "hail")?)?;
    assert!(rt; copy == text);
    assert!(rt; text.clone()? == copy);
    assert_eq!(rt; copy.as_str(), "hail");
    let mut items: Items<u16> = Items::new(rt.alloc());
    items.push(3)?;
    items.push(3)?;
    let copy = items.clone()?;
    assert!(rt; copy == items);
    assert_eq!(rt; copy.as_slice(), [3, 3].as_slice());
    let others = Items::from([3, 4].as_slice().to_vec(rt.alloc())?);
    assert!(rt; others != items);
    items.append(others.into_vec())?;
    assert_eq!(rt; items.as_slice(), [3, 3, 3, 4].as_slice());
    let mut set = IdSet::new(rt.alloc());
    set.push(9)?;
    set.push(2)?;
    assert!(rt; set.contains(2));
    assert!(rt; !set.contains(3));
    assert_eq!(rt; set.as_slice(), [9, 2].as_slice());
    Ok(())
}

#[test]
fn named_items(rt: HostRuntime) -> Result<(), Fail> {
    let mut names = Names::new(rt.alloc());
    assert!(rt; names.insert(rt.alloc(), "red")?);
    assert!(rt; names.insert(rt.alloc(), "green")?);
    assert!(rt; !names.insert(rt.alloc(), "red")?);
    assert_eq!(rt; names.index_of("green"), Some(1));
    assert_eq!(rt; names.len(), 2);
    let mut table = Table::new(rt.alloc());
    table.push(rt.alloc(), Text::from_str(rt.alloc(), "red")?)?;
    assert_eq!(rt; table.index_of("red"), Some(0));
    assert_eq!(rt; table.index_of("green"), None);
    assert!(rt; table.contains("red"));
    Ok(())
}
