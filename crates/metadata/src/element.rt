//! The types of elements.
ghost use Rattle.std.specs.Prelude.{◌≡◌};
ghost use Rattle.metadata.specs.Values.{type_number, type_numbered, element_len};

/// The type of an entry's elements.
#[derive(Clone, Copy, PartialEq, Eq)]
pub enum ElementType {
    /// Number 0: one byte each.
    Byte,
    /// Number 1: four bytes each.
    Int32,
    /// Number 3: eight bytes each.
    Int64,
    /// Number 5: eight bytes each, the numerator first.
    Rational,
}

impl ElementType {
    /// The type that has a number, if one has.
    pub fn from_number(number: u8) -> Option<ElementType>
        ensures { result ≡ type_numbered number }
    {
        match number {
            0 => Some(ElementType::Byte),
            1 => Some(ElementType::Int32),
            3 => Some(ElementType::Int64),
            5 => Some(ElementType::Rational),
            _ => None,
        }
    }

    /// The number of the type.
    pub fn number(self) -> u8
        ensures { result ≡ type_number self }
    {
        match self {
            ElementType::Byte => 0,
            ElementType::Int32 => 1,
            ElementType::Int64 => 3,
            ElementType::Rational => 5,
        }
    }

    /// How many bytes an element has.
    pub fn element_len(self) -> usize
        ensures { result ≡ element_len self }
    {
        match self {
            ElementType::Byte => 1,
            ElementType::Int32 => 4,
            ElementType::Int64 | ElementType::Rational => 8,
        }
    }
}
