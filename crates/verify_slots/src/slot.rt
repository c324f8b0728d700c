// What is known of one value.

ghost use Rattle.std.specs.Prelude.{◌≡◌, IfOk};

use dc_base::{MemberId, NoMemory, Seq, Ty, TypeId};
use std::alloc::Global;

/// What is known of a value on the stack.
#[derive(Debug, Drop)]
pub enum Slot {
    /// 0 or 1, as false and true are written.
    Truth,
    /// An integer of 32 bits.
    Int,
    /// An integer of 64 bits.
    Long,
    /// The length of an array.
    Length,
    /// Null, or a reference to an object of one of these types, which stand in their order, each once.
    Refs(Seq<Ty>, Mark),
    /// A value of a type of which nothing but its members is known.
    Opaque(TypeId),
    /// The address of a place of this type.
    Lent(Ty, Tested),
    /// A method as a function, of which a delegate is to be made.
    Code(MemberId),
}

/// Which object a reference is to: the receiver of the method that runs, one that was made here and is of just the one
/// type, or any other.
#[derive(Clone, Copy, Debug, PartialEq, Eq)]
pub enum Mark {
    This,
    Fresh,
    Other,
}

/// Whether what making the address may fault at is done, or belongs to its first use: then this is the number of the
/// instruction that made it.
#[derive(Clone, Copy, Debug, PartialEq, Eq)]
pub enum Tested {
    Yes,
    By(u32),
}

impl Slot {
    pub fn copied(&self, alloc: Global) -> Result<Slot, NoMemory>
        ensures { IfOk result (λ slot. slot ≡ self.now) }
    {
        Ok(match self {
            Slot::Truth => Slot::Truth,
            Slot::Int => Slot::Int,
            Slot::Long => Slot::Long,
            Slot::Length => Slot::Length,
            Slot::Refs(set, mark) => return refs(set.copied(alloc)?, *mark),
            Slot::Opaque(ty) => Slot::Opaque(*ty),
            Slot::Lent(ty, tested) => Slot::Lent(*ty, *tested),
            Slot::Code(member) => Slot::Code(*member),
        })
    }
}

// References with this mark.
fn refs(set: Seq<Ty>, mark: Mark) -> Result<Slot, NoMemory>
    ensures { IfOk result (λ slot. slot ≡ Slot.Refs set mark) }
{
    Ok(Slot::Refs(set, mark))
}
