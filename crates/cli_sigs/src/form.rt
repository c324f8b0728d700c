// What a row is asked for.

/// What the signature of a row is to be. `Constructor` is that of a method which is the constructor of a delegate, and
/// `NamedConstructor` of a reference to one; `Type_` is a type by itself.
#[derive(Clone, Copy, Debug, PartialEq, Eq)]
pub enum Form {
    Field,
    Method,
    Constructor,
    Member,
    NamedConstructor,
    Locals,
    Property,
    Type_,
}
