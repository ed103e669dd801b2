//! Tests of the numbers of a text's faults.

use bb_lang::{LangFault, Place};

#[test]
fn numbers_of_language_faults(rt: HostRuntime) {
    let place = Place { line: 1, column: 2 };
    assert_eq!(rt; LangFault::Character { place }.number(), 1);
    assert_eq!(rt; LangFault::Token { place }.number(), 2);
    assert_eq!(rt; LangFault::Nesting { place }.number(), 3);
    assert_eq!(rt; LangFault::Twice { place }.number(), 4);
    assert_eq!(rt; LangFault::Limit { place }.number(), 5);
    assert_eq!(rt; LangFault::Memory.number(), 6);
}
