//! The facts of one type.

ghost use Rattle.std.specs.Prelude.{◌≡◌};
ghost use Rattle.pc_types_lists.specs.Facts.{no_facts, join, has_handle};

/// Which types stand anywhere in a type. What a stream or a future carries isn't entered.
#[derive(Clone, Copy, PartialEq, Eq)]
pub struct TypeFacts {
    pub string: bool,
    pub list: bool,
    pub own: bool,
    pub borrow: bool,
    pub future: bool,
    pub stream: bool,
    pub error_context: bool,
}

impl TypeFacts {
    /// The facts of a type in which none of these stand.
    pub fn none() -> TypeFacts
        ensures { result ≡ no_facts }
    {
        TypeFacts {
            string: false,
            list: false,
            own: false,
            borrow: false,
            future: false,
            stream: false,
            error_context: false,
        }
    }

    /// What stands in one of two types.
    pub fn join(self, other: TypeFacts) -> TypeFacts
        ensures { result ≡ join self other }
    {
        TypeFacts {
            string: self.string | other.string,
            list: self.list | other.list,
            own: self.own | other.own,
            borrow: self.borrow | other.borrow,
            future: self.future | other.future,
            stream: self.stream | other.stream,
            error_context: self.error_context | other.error_context,
        }
    }

    /// Whether a value of the type may hold a handle: to a resource, a future, a stream or an error context.
    pub fn has_handle(self) -> bool
        ensures { result ≡ has_handle self }
    {
        self.own | self.borrow | self.future | self.stream | self.error_context
    }
}
