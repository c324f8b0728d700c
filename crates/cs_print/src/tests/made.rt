// Parts of trees.

use cs_token::Suffix;
use cs_tree::{
    Access, Accessor, Arg, Block, Form, KeywordType, Literal, Mods, Name, Param, Spot, Syntax,
    TypeForm, TypeName, Way,
};
use dc_base::{Items, NoMemory, Seq, Text};
use std::alloc::Global;

pub(crate) const SPOT: Spot = Spot::NONE;

pub(crate) fn name(alloc: Global, text: &str) -> Result<Name, NoMemory> {
    Ok(Name {
        spot: SPOT,
        text: Text::of(alloc, text)?,
    })
}

pub(crate) fn keyword(keyword: KeywordType) -> TypeForm {
    TypeForm {
        spot: SPOT,
        name: TypeName::Keyword { keyword },
        ranks: 0,
    }
}

pub(crate) fn int() -> TypeForm {
    keyword(KeywordType::Int)
}

pub(crate) fn path(alloc: Global, first: &str, second: &str) -> Result<Seq<Text>, NoMemory> {
    let mut path = Seq::new(alloc);
    path.push(Text::of(alloc, first)?)?;
    path.push(Text::of(alloc, second)?)?;
    Ok(path)
}

pub(crate) fn global(alloc: Global, first: &str, second: &str) -> Result<TypeForm, NoMemory> {
    Ok(TypeForm {
        spot: SPOT,
        name: TypeName::Global {
            path: path(alloc, first, second)?,
        },
        ranks: 0,
    })
}

pub(crate) fn mods(access: Option<Access>) -> Mods {
    Mods {
        access,
        is_static: false,
        is_abstract: false,
        is_sealed: false,
        is_virtual: false,
        is_override: false,
        is_readonly: false,
        is_extern: false,
    }
}

pub(crate) fn public() -> Mods {
    mods(Some(Access::Public))
}

pub(crate) fn var(alloc: Global, name: &str) -> Result<Form, NoMemory> {
    Ok(Form::Name {
        spot: SPOT,
        text: Text::of(alloc, name)?,
    })
}

pub(crate) fn number(value: u64, suffix: Suffix) -> Form {
    Form::Literal {
        spot: SPOT,
        literal: Literal::Number { value, suffix },
    }
}

/// Parameters of type int, the second one by reference.
pub(crate) fn params(alloc: Global, names: &[&str]) -> Result<Seq<Param>, NoMemory> {
    let mut params = Seq::new(alloc);
    for (index, text) in names.iter().enumerate() {
        params.push(Param {
            way: if index == 1 { Way::Ref } else { Way::Value },
            ty: int(),
            name: name(alloc, text)?,
        })?;
    }
    Ok(params)
}

pub(crate) fn args(alloc: Global, names: &[&str]) -> Result<Items<Arg>, NoMemory> {
    let mut args = Items::new(alloc);
    for text in names {
        args.push(Arg {
            way: Way::Value,
            form: var(alloc, text)?,
        })?;
    }
    Ok(args)
}

pub(crate) fn empty(alloc: Global) -> Block {
    Block {
        stmts: Items::new(alloc),
        end: SPOT,
    }
}

/// A block that returns a variable.
pub(crate) fn returning(alloc: Global, name: &str) -> Result<Block, NoMemory> {
    let mut stmts = Items::new(alloc);
    stmts.push(Syntax::Return {
        spot: SPOT,
        value: Some(var(alloc, name)?),
    })?;
    Ok(Block { stmts, end: SPOT })
}

pub(crate) fn accessor(access: Option<Access>, block: Option<Block>) -> Option<Accessor> {
    Some(Accessor {
        spot: SPOT,
        mods: mods(access),
        block,
    })
}
