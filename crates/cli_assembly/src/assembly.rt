// A loaded assembly.

ghost use Rattle.std.specs.Prelude.{◌≡◌};
ghost use Rattle.std.specs.Option.{option_copied};
ghost use Rattle.cli_assembly.specs.Meaning.{AreInOrder, meaning};

use crate::meaning::{Named, meaning_of};
use cil_body::Body;
use class_table::ClassTable;
use dc_base::{MemberId, Seq, Text, Token, Ty, TypeId};

/// A property (ECMA-335 II.22.34): its parameters' types and its own, its accessors, and whether it has others beside a
/// getter and a setter.
#[derive(Debug, Drop)]
pub struct PropertyRow {
    pub owner: TypeId,
    pub name: Text,
    pub params: Seq<Ty>,
    pub ty: Ty,
    pub getter: Option<MemberId>,
    pub setter: Option<MemberId>,
    pub others: bool,
}

/// An assembly with its references.
#[derive(Drop)]
pub struct Assembly {
    pub name: Text,
    /// All types and members: those of the references first.
    pub table: ClassTable,
    /// The first of its own types and the first of its own members.
    pub own_from: (TypeId, MemberId),
    /// What each token means that an instruction, a local signature or a catch names, by token.
    pub tokens: Seq<(Token, Named)>,
    /// The bodies of its methods, by member.
    pub bodies: Seq<(MemberId, Body)>,
    pub properties: Seq<PropertyRow>,
    /// The names of the parameters of its methods.
    pub params: Seq<(MemberId, Seq<Text>)>,
    /// Each explicit implementation, with the method of an interface that it implements.
    pub explicit: Seq<(MemberId, MemberId)>,
}

impl Assembly {
    /// What a token means, where the tokens stand in their order. None where it isn't among them.
    pub fn named(&self, token: Token) -> Option<&Named>
        requires { AreInOrder self.now.tokens }
        ensures { option_copied result ≡ meaning self.now.tokens token }
    {
        meaning_of(self.tokens.items(), token)
    }
}
