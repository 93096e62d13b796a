// The element kinds that a heap can hold: those with a total order.
ghost use Rattle.std.specs.Prelude.{◌≡◌, Bool, true, false};

// An order of its own and not Ord, which asks that two are equal where they are level.
pub trait Ordered {
    // Two elements may be level: each is then at most the other.
    ghost at_most: { Self → Self → Bool };

    fn at_most(&self, other: &Self) -> bool
        ensures { result ≡ at_most self.now other.now };

    ghost total: { (x y : Self) → at_most x y ≡ false → at_most y x ≡ true };

    ghost transitive: { (x y z : Self) → at_most x y ≡ true → at_most y z ≡ true → at_most x z ≡ true };
}
