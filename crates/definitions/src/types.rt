// The names that definitions are made of (01, "Definitions").
ghost use Rattle.std.specs.Prelude.{◌≡◌};
ghost use Rattle.model.specs.Definition.{named_by};
ghost use Rattle.chars.specs.Strings.{characters};
ghost use Rattle.definitions.specs.Types.{type_name, generic_of, takes_kind, named_takes};

use chars::same_name;

// The types that a string can name.
#[derive(Clone, Copy, Debug, PartialEq, Eq)]
pub enum TypeName {
    Json,
    Schema,
    Float,
    Integer,
    Text,
    Boolean,
    DateTime,
}

impl TypeName {
    // Whether the type takes every value of a kind, which is a row's number (see `Record`).
    #[tactic(auto, unfolding(crate::specs::Types::takes_kind))]
    pub fn takes(self, kind: u32) -> bool
        ensures { result ≡ takes_kind self kind }
    {
        match self {
            TypeName::Json => true,
            TypeName::Float => matches!(kind, 4 | 5),
            TypeName::Integer => kind == 4,
            TypeName::Text => kind == 6,
            TypeName::Boolean => matches!(kind, 2 | 3),
            TypeName::Schema | TypeName::DateTime => false,
        }
    }
}

// Whether what a string names takes every value of a kind: a string that names no type takes none.
pub fn takes(name: Option<TypeName>, kind: u32) -> bool
    ensures { result ≡ named_takes name kind }
{
    name.is_some_and(|name| name.takes(kind))
}

// The generic types that a member of a definition can name.
#[derive(Clone, Copy, Debug, PartialEq, Eq)]
pub enum Generic {
    Array,
    Map,
    Object,
}

// The type that a string names, as the bytes between its quotes; the commonest first. A test for each word: a table of words would be no plainer.
pub fn named_type(name: &[u8]) -> Option<TypeName>
    ensures { result ≡ type_name (named_by (characters name.now)) }
{
    if same_name(name, b"String") {
        return Some(TypeName::Text);
    }
    if same_name(name, b"Integer") {
        return Some(TypeName::Integer);
    }
    if same_name(name, b"DateTime") {
        return Some(TypeName::DateTime);
    }
    if same_name(name, b"Boolean") {
        return Some(TypeName::Boolean);
    }
    if same_name(name, b"Float") {
        return Some(TypeName::Float);
    }
    if same_name(name, b"JSON") {
        return Some(TypeName::Json);
    }
    if same_name(name, b"Schema") {
        return Some(TypeName::Schema);
    }
    None
}

// The generic type that a name is.
pub fn generic_name(name: &[u8]) -> Option<Generic>
    ensures { result ≡ generic_of (characters name.now) }
{
    if same_name(name, b"Array") {
        return Some(Generic::Array);
    }
    if same_name(name, b"Map") {
        return Some(Generic::Map);
    }
    if same_name(name, b"Object") {
        return Some(Generic::Object);
    }
    None
}
