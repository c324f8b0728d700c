// The tables whose rows are asked.

ghost use Rattle.std.specs.Prelude.{◌≡◌, ◌+◌, ◌*◌, ◌<◌, ◌^◌};
ghost use Rattle.cli_metadata.specs.Numbers.{number_of};
ghost use Rattle.cli_profile.specs.Judged.{table_of, asked, FailsNone, FailsAt};

use crate::rows::Rows;
use cli_conditions::Condition;
use cli_metadata::Table;
use dc_base::Token;
use dc_causes::Condition as Asked;

/// A table of which a row may fail a condition.
#[derive(Clone, Copy, Debug, PartialEq, Eq)]
pub(crate) enum Judged {
    Field,
    MethodDef,
    FieldMarshal,
    DeclSecurity,
    ClassLayout,
    FieldLayout,
    EventMap,
    Event,
    ModuleRef,
    TypeSpec,
    ImplMap,
    FieldRva,
    Assembly,
    File,
    ExportedType,
    GenericParam,
    MethodSpec,
    GenericParamConstraint,
}

impl Judged {
    // By their numbers.
    pub(crate) const ALL: [Judged; 18] = [
        Judged::Field,
        Judged::MethodDef,
        Judged::FieldMarshal,
        Judged::DeclSecurity,
        Judged::ClassLayout,
        Judged::FieldLayout,
        Judged::EventMap,
        Judged::Event,
        Judged::ModuleRef,
        Judged::TypeSpec,
        Judged::ImplMap,
        Judged::FieldRva,
        Judged::Assembly,
        Judged::File,
        Judged::ExportedType,
        Judged::GenericParam,
        Judged::MethodSpec,
        Judged::GenericParamConstraint,
    ];

    pub(crate) fn table(self) -> Table
        ensures { result ≡ table_of self }
    {
        match self {
            Judged::Field => Table::Field,
            Judged::MethodDef => Table::MethodDef,
            Judged::FieldMarshal => Table::FieldMarshal,
            Judged::DeclSecurity => Table::DeclSecurity,
            Judged::ClassLayout => Table::ClassLayout,
            Judged::FieldLayout => Table::FieldLayout,
            Judged::EventMap => Table::EventMap,
            Judged::Event => Table::Event,
            Judged::ModuleRef => Table::ModuleRef,
            Judged::TypeSpec => Table::TypeSpec,
            Judged::ImplMap => Table::ImplMap,
            Judged::FieldRva => Table::FieldRva,
            Judged::Assembly => Table::Assembly,
            Judged::File => Table::File,
            Judged::ExportedType => Table::ExportedType,
            Judged::GenericParam => Table::GenericParam,
            Judged::MethodSpec => Table::MethodSpec,
            Judged::GenericParamConstraint => Table::GenericParamConstraint,
        }
    }

    // The token of row k + 1.
    pub(crate) fn token(self, k: usize) -> Token
        requires { k + 1 < 2 ^ 24 }
        ensures { result ≡ record { 0 = number_of (table_of self) * 2 ^ 24 + (k + 1) } }
    {
        Token(u32::from(self.table().number()) * 0x100_0000 + (k as u32 + 1))
    }

    // The first condition that row k + 1 fails, where it fails one.
    pub(crate) fn condition(self, rows: &Rows, k: usize) -> Condition
        requires within { k < asked self rows.now }
        requires fails { FailsNone self rows.now k → ⊥ }
        ensures { FailsAt self rows.now k result }
    {
        match self {
            Judged::Field => Condition::ModuleMember,
            Judged::MethodDef if rows.is_foreign(k) => Condition::Native,
            Judged::MethodDef => Condition::ModuleMember,
            Judged::FieldMarshal => Condition::Marshal,
            Judged::DeclSecurity => Condition::Security,
            Judged::ClassLayout | Judged::FieldLayout => Condition::Layout,
            Judged::EventMap | Judged::Event => Condition::Event,
            Judged::TypeSpec => Condition::TypeSpec,
            Judged::ImplMap => Condition::Native,
            Judged::FieldRva => Condition::FieldData,
            Judged::Assembly => Condition::Modules,
            Judged::ModuleRef | Judged::File | Judged::ExportedType => Condition::Modules,
            Judged::GenericParam | Judged::MethodSpec | Judged::GenericParamConstraint =>
                Condition::Generic,
        }
    }
}

// Of a row: it fails no condition.
impl<'a> Asked<Rows<'a>> for Judged {
    ghost rows = { asked };

    ghost Holds = { FailsNone };

    fn rows(self, rows: &Rows<'a>) -> usize {
        let there = rows.of_table(self.table()) as usize;
        match self {
            Judged::Assembly => there.max(1),
            _ => there,
        }
    }

    fn holds(self, rows: &Rows<'a>, row: usize) -> bool {
        match self {
            Judged::Field => !rows.is_module_field(row),
            Judged::MethodDef => !rows.is_foreign(row) && !rows.is_module_method(row),
            Judged::TypeSpec => !rows.is_other_spec(row),
            Judged::Assembly => row == 0 && 0 < rows.of_table(Table::Assembly),
            _ => false,
        }
    }
}
