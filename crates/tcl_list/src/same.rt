ghost use Rattle.std.specs.Prelude.{◌≡◌, ◌↔◌, IsTrue};

/// Equality of what contracts see, without memory.
pub trait Same {
    fn same(&self, other: &Self) -> bool
        ensures same { IsTrue result ↔ (self.now ≡ other.now) };
}

impl Same for bool {
    fn same(&self, other: &Self) -> bool {
        *self == *other
    }
}

impl Same for u8 {
    fn same(&self, other: &Self) -> bool {
        *self == *other
    }
}

impl Same for u32 {
    fn same(&self, other: &Self) -> bool {
        *self == *other
    }
}

impl Same for u64 {
    fn same(&self, other: &Self) -> bool {
        *self == *other
    }
}

impl Same for i128 {
    fn same(&self, other: &Self) -> bool {
        *self == *other
    }
}
