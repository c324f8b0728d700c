// Each form of member.

use crate::print_member;
use crate::tests::made::{
    SPOT, accessor, args, empty, int, keyword, mods, name, number, params, path, public, returning,
};
use cs_token::Suffix;
use cs_tree::{Access, Explicit, Initial, KeywordType, Member, Mods};
use dc_base::{NoMemory, Text};
use std::alloc::Global;
use std::test::Fail;

fn printed(alloc: Global, member: &Member) -> Result<String, NoMemory> {
    let mut out = String::from_str(alloc, "{\n")?;
    print_member(alloc, member, 1, &mut out)?;
    Ok(out)
}

#[test]
fn fields_and_constants(rt: HostRuntime) -> Result<(), Fail> {
    let alloc = rt.alloc();
    let renamed = Member::Field {
        spot: SPOT,
        note: Some(Text::of(alloc, "<>f\\\u{e9}\u{1f600}")?),
        mods: Mods {
            access: Some(Access::Private),
            is_static: true,
            is_abstract: false,
            is_sealed: false,
            is_virtual: false,
            is_override: false,
            is_readonly: true,
            is_extern: false,
        },
        ty: int(),
        name: name(alloc, "F_1")?,
        value: None,
    };
    assert_eq!(rt;
        printed(alloc, &renamed)?.as_str(),
        "{\n    // name: <>f\\\\u00e9\\ud83d\\ude00\n    private static readonly int F_1;\n"
    );
    let given = Member::Field {
        spot: SPOT,
        note: None,
        mods: public(),
        ty: int(),
        name: name(alloc, "class")?,
        value: Some(number(5, Suffix::Plain)),
    };
    assert_eq!(rt;
        printed(alloc, &given)?.as_str(),
        "{\n    public int @class = 5;\n"
    );
    let constant = Member::Constant {
        spot: SPOT,
        note: None,
        mods: mods(Some(Access::Internal)),
        ty: keyword(KeywordType::Long),
        name: name(alloc, "K")?,
        value: number(7, Suffix::Long),
    };
    assert_eq!(rt;
        printed(alloc, &constant)?.as_str(),
        "{\n    internal const long K = 7L;\n"
    );
    Ok(())
}

#[test]
fn methods_with_and_without_a_block(rt: HostRuntime) -> Result<(), Fail> {
    let alloc = rt.alloc();
    let with = Member::Method {
        spot: SPOT,
        note: None,
        mods: Mods {
            access: Some(Access::ProtectedOrInternal),
            is_static: false,
            is_abstract: false,
            is_sealed: true,
            is_virtual: false,
            is_override: true,
            is_readonly: false,
            is_extern: false,
        },
        result: Some(int()),
        explicit: None,
        name: name(alloc, "M")?,
        params: params(alloc, &["a", "b"])?,
        block: Some(returning(alloc, "a")?),
    };
    assert_eq!(rt;
        printed(alloc, &with)?.as_str(),
        "{\n    protected internal sealed override int M(int a, ref int b)\n    {\n        return a;\n    }\n"
    );
    let without = Member::Method {
        spot: SPOT,
        note: None,
        mods: mods(None),
        result: None,
        explicit: Some(Explicit {
            spot: SPOT,
            path: path(alloc, "A", "I")?,
        }),
        name: name(alloc, "Go")?,
        params: params(alloc, &[])?,
        block: None,
    };
    assert_eq!(rt;
        printed(alloc, &without)?.as_str(),
        "{\n    void global::A.I.Go();\n"
    );
    Ok(())
}

#[test]
fn constructors_and_initializers(rt: HostRuntime) -> Result<(), Fail> {
    let alloc = rt.alloc();
    let by_base = Member::Constructor {
        spot: SPOT,
        note: None,
        mods: public(),
        name: name(alloc, "A")?,
        params: params(alloc, &["a"])?,
        initial: Initial::Base {
            args: args(alloc, &["a", "a"])?,
        },
        block: empty(alloc),
    };
    assert_eq!(rt;
        printed(alloc, &by_base)?.as_str(),
        "{\n    public A(int a) : base(a, a)\n    {\n    }\n"
    );
    let by_this = Member::Constructor {
        spot: SPOT,
        note: None,
        mods: mods(Some(Access::ProtectedAndInternal)),
        name: name(alloc, "A")?,
        params: params(alloc, &[])?,
        initial: Initial::This {
            args: args(alloc, &[])?,
        },
        block: empty(alloc),
    };
    assert_eq!(rt;
        printed(alloc, &by_this)?.as_str(),
        "{\n    private protected A() : this()\n    {\n    }\n"
    );
    let of_type = Member::Initializer {
        spot: SPOT,
        note: None,
        name: name(alloc, "A")?,
        block: empty(alloc),
    };
    assert_eq!(rt;
        printed(alloc, &of_type)?.as_str(),
        "{\n    static A()\n    {\n    }\n"
    );
    Ok(())
}

#[test]
fn members_of_reference_texts(rt: HostRuntime) -> Result<(), Fail> {
    let alloc = rt.alloc();
    let maker = Member::Maker {
        spot: SPOT,
        mods: public(),
        name: name(alloc, "A")?,
        params: params(alloc, &["a"])?,
    };
    assert_eq!(rt;
        printed(alloc, &maker)?.as_str(),
        "{\n    public A(int a);\n"
    );
    let indexer = Member::Indexer {
        spot: SPOT,
        mods: public(),
        ty: keyword(KeywordType::Char),
        name: name(alloc, "Chars")?,
        index_ty: int(),
        index: name(alloc, "i")?,
        getter: accessor(None, None),
        setter: None,
    };
    assert_eq!(rt;
        printed(alloc, &indexer)?.as_str(),
        "{\n    public indexer char Chars[int i]\n    {\n        get;\n    }\n"
    );
    let operator = Member::Operator {
        spot: SPOT,
        ty: keyword(KeywordType::Bool),
        name: name(alloc, "op_Equality")?,
        params: params(alloc, &["a"])?,
    };
    assert_eq!(rt;
        printed(alloc, &operator)?.as_str(),
        "{\n    operator bool op_Equality(int a);\n"
    );
    Ok(())
}
