// What a ring of integers offers: an element stands for integers, and each result for the result of the integers.

ghost use Rattle.std.specs.Prelude.{◌≡◌, ℕ, ℤ, ◌+ℤ◌, ◌*ℤ◌, neg_ℤ, Option};
ghost use Rattle.tcl_ring.specs.Reduction.{IsModulus, IsResult, IsInverse};

/// A number is of magnitude 2^127 or more, where the ring has only smaller ones.
#[derive(Debug, Clone, Copy, PartialEq, Eq, Drop)]
pub struct Wide;

/// A ring whose elements stand for integers. Contracts see an element by its value: the integer itself, or the residue
/// from 0 up. So two elements stand for the same integers exactly where their values are equal.
pub trait Ring {
    type Elem: Copy;

    /// The modulus, or none for the ring of all integers.
    ghost modulus_of: { Self → Option ℕ };

    /// The value of an element.
    ghost amount: { Self → Self.Elem → ℤ };

    /// The element that stands for `n`.
    fn number(&self, n: i128) -> Result<Self::Elem, Wide>
        ensures { IsResult (modulus_of self.now) (amount self.now) n result };

    fn add(&self, a: &Self::Elem, b: &Self::Elem) -> Result<Self::Elem, Wide>
        ensures { IsResult (modulus_of self.now) (amount self.now) (amount self.now a.now +ℤ amount self.now b.now) result };

    fn neg(&self, a: &Self::Elem) -> Result<Self::Elem, Wide>
        ensures { IsResult (modulus_of self.now) (amount self.now) (neg_ℤ (amount self.now a.now)) result };

    fn mul(&self, a: &Self::Elem, b: &Self::Elem) -> Result<Self::Elem, Wide>
        ensures { IsResult (modulus_of self.now) (amount self.now) (amount self.now a.now *ℤ amount self.now b.now) result };

    /// The element that stands for `a + b * c`. The sum alone decides whether it is too great: the product may be greater.
    fn add_product(
        &self,
        a: &Self::Elem,
        b: &Self::Elem,
        c: &Self::Elem,
    ) -> Result<Self::Elem, Wide>
        ensures { IsResult (modulus_of self.now) (amount self.now) (amount self.now a.now +ℤ amount self.now b.now *ℤ amount self.now c.now) result };

    /// The element whose product with `a` is 1, where there is one.
    fn inverse(&self, a: &Self::Elem) -> Option<Self::Elem>
        ensures { IsInverse (modulus_of self.now) (amount self.now) (amount self.now a.now) result };

    /// The integer itself, or the residue from 0 up.
    fn value(&self, a: &Self::Elem) -> i128
        ensures { result ≡ amount self.now a.now };

    fn modulus(&self) -> Option<u128>
        ensures { result ≡ modulus_of self.now };

    /// A modulus is from 1 to 2^126.
    ghost is_modulus: { (r : Self) → IsModulus (modulus_of r) };
}
