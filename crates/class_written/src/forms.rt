// What a written type means.

ghost use Rattle.std.specs.Prelude.{◌≡◌, IfOk};
ghost use Rattle.std.specs.Option.{option_map};
ghost use Rattle.class_written.specs.Forms.{ty_of, core_of, core_at, core_by, number_written, keyword_class, result_of, void, own_ty, object};

use crate::Types;
use crate::kinds::written;
use class_rows::Kind;
use cs_declared::joined;
use cs_tree::{KeywordType, TypeForm, TypeName};
use dc_base::{Core, NoMemory, Ty, TypeId};
use std::alloc::Global;

/// The type that a method has without a result.
pub fn void() -> Ty
    ensures { result ≡ void }
{
    Ty {
        core: Core::Void,
        arrays: 0,
        lent: false,
    }
}

impl<'a> Types<'a> {
    /// A type as it is written. More brackets than 255 count as 255.
    pub fn ty(&self, alloc: Global, form: &TypeForm, lent: bool) -> Result<Ty, NoMemory>
        ensures { IfOk result (λ ty. ty ≡ ty_of self.now lent form.now) }
    {
        Ok(Ty {
            core: self.core(alloc, &form.name)?,
            arrays: form.ranks.min(255) as u8,
            lent,
        })
    }

    fn core(&self, alloc: Global, name: &TypeName) -> Result<Core, NoMemory>
        ensures { IfOk result (λ core. core ≡ core_of self.now name.now) }
    {
        if let Some(prim) = written(name) {
            return Ok(Core::Prim(prim));
        }
        let number = self.number_written(alloc, name)?;
        Ok(self.core_at(number))
    }

    /// The number of the type that is written so, or a number that names nothing.
    pub fn number_written(&self, alloc: Global, name: &TypeName) -> Result<u32, NoMemory>
        ensures { IfOk result (λ number. number ≡ number_written self.now name.now) }
    {
        match name {
            TypeName::Keyword { keyword } => Ok(self.named(keyword_class(*keyword))),
            TypeName::Global { path } => {
                let name = joined(alloc, path.items())?;
                Ok(self.named(name.as_str()))
            }
        }
    }

    // The type of a number, without brackets.
    fn core_at(&self, number: u32) -> Core
        ensures { result ≡ core_at self.now number }
    {
        match self.kind(number) {
            Some(kind) => core_by(kind, TypeId(number)),
            None => Core::Class(TypeId(number)),
        }
    }

    /// The result of a method.
    pub fn result(&self, alloc: Global, form: Option<&TypeForm>) -> Result<Ty, NoMemory>
        ensures { IfOk result (λ ty. ty ≡ result_of self.now (option_map (λ f. f.now) form.entry)) }
    {
        match form {
            Some(form) => self.ty(alloc, form, false),
            None => Ok(void()),
        }
    }

    /// The type of a number.
    pub fn own(&self, number: u32) -> Ty
        ensures { result ≡ own_ty self.now number }
    {
        Ty {
            core: self.core_at(number),
            arrays: 0,
            lent: false,
        }
    }

    /// System.Object.
    pub fn object(&self) -> Ty
        ensures { result ≡ object self.now }
    {
        Ty {
            core: Core::Class(TypeId(self.named("System.Object"))),
            arrays: 0,
            lent: false,
        }
    }
}

fn keyword_class(keyword: KeywordType) -> &'static str
    ensures { result.now ≡ keyword_class keyword }
{
    match keyword {
        KeywordType::String => "System.String",
        _ => "System.Object",
    }
}

fn core_by(kind: Kind, id: TypeId) -> Core
    ensures { result ≡ core_by kind id.0 }
{
    match kind {
        Kind::Enum(_) => Core::Enum(id),
        Kind::Opaque | Kind::Struct => Core::Value(id),
        _ => Core::Class(id),
    }
}
