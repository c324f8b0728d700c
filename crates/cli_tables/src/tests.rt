// Rows of metadata made by hand.

use crate::{AssemblyRow, ConstantRow, MethodImplRow, TypeDefRow, TypeRefRow};
use cli_metadata::{Coded, CodedIndex, TableRow};
use dc_base::Token;

#[test]
fn columns_have_their_names(rt: HostRuntime) {
    let row = TypeDefRow::of(&[0x10_0001, 3, 1, 5, 7, 9, 0, 0, 0]);
    assert_eq!(rt; row.flags, 0x10_0001);
    assert_eq!(rt; (row.name, row.namespace), (3, 1));
    assert!(rt; row.extends.token() == Some(Token(0x0100_0001)));
    assert_eq!(rt; (row.fields, row.methods), (7, 9));
    let row = TypeRefRow::of(&[0x12, 3, 1, 0, 0, 0, 0, 0, 0]);
    assert!(rt; row.scope.token() == Some(Token(0x2300_0004)));
    assert_eq!(rt; (row.name, row.namespace), (3, 1));
    let row = ConstantRow::of(&[0x08, 0, 4, 11, 0, 0, 0, 0, 0]);
    assert_eq!(rt; (row.element, row.value), (0x08, 11));
    assert!(rt; row.parent.token() == Some(Token(0x0400_0001)));
    let row = MethodImplRow::of(&[2, 6, 3, 0, 0, 0, 0, 0, 0]);
    assert_eq!(rt; row.class, 2);
    assert!(rt; row.body.token() == Some(Token(0x0600_0003)));
    assert!(rt; row.declaration.token() == Some(Token(0x0A00_0001)));
    let row = AssemblyRow::of(&[0x8004, 1, 2, 3, 4, 0, 20, 30, 40]);
    assert_eq!(rt; (row.public_key, row.name, row.culture), (20, 30, 40));
}
