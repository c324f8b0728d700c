// Words, against the text that they are.

use crate::{Fixed, write_binary, write_fixed, write_literal, write_params, write_type};
use cs_tree::{BinaryOp, KeywordType, Literal, Name, Param, Spot, TypeForm, TypeName, Way};
use dc_base::{NoMemory, Seq, Text, Text16};
use std::alloc::Global;
use std::test::Fail;

fn ints(ranks: u32) -> TypeForm {
    TypeForm {
        spot: Spot::NONE,
        name: TypeName::Keyword {
            keyword: KeywordType::Int,
        },
        ranks,
    }
}

fn param(alloc: Global, way: Way, ty: TypeForm, name: &str) -> Result<Param, NoMemory> {
    Ok(Param {
        way,
        ty,
        name: Name {
            spot: Spot::NONE,
            text: Text::of(alloc, name)?,
        },
    })
}

#[test]
fn words_as_they_are_printed(rt: HostRuntime) -> Result<(), Fail> {
    let alloc = rt.alloc();
    let mut path = Seq::new(alloc);
    path.push(Text::of(alloc, "System")?)?;
    path.push(Text::of(alloc, "String")?)?;
    let text = TypeForm {
        spot: Spot::NONE,
        name: TypeName::Global { path },
        ranks: 0,
    };
    let mut out = String::new(alloc);
    write_type(&mut out, &text)?;
    write_binary(&mut out, BinaryOp::ShiftLeft)?;
    write_literal(&mut out, &Literal::Bool { value: false })?;
    write_fixed(&mut out, Fixed::Arrow)?;
    let units = Text16::of(alloc, &[0x61, 9])?;
    write_literal(&mut out, &Literal::Text { units })?;
    assert_eq!(rt;
        out.as_str(),
        "global::System.String << false) => {\n\"a\\t\""
    );
    Ok(())
}

#[test]
fn parameters_as_they_are_printed(rt: HostRuntime) -> Result<(), Fail> {
    let alloc = rt.alloc();
    let params = vec![in alloc;
        param(alloc, Way::Value, ints(2), "a0")?,
        param(alloc, Way::Ref, ints(0), "in")?,
        param(alloc, Way::Out, ints(1), "a2")?,
    ]?;
    let mut out = String::new(alloc);
    write_params(&mut out, params.as_slice())?;
    assert_eq!(rt; out.as_str(), "int[][] a0, ref int @in, out int[] a2");
    Ok(())
}
