//! The trait of all gadgets.
ghost use Rattle.std.specs.Prelude.{◌≡◌, ℕ, List, length};
ghost use Rattle.flp_gadget.specs.GadgetLaws.{GadgetLaw, IsWithinLimits};

use flp_field::Fe;

/// A polynomial of one or more inputs, by which a circuit multiplies.
pub trait Gadget {
    /// What holds of each gadget of the type that a program can have.
    ghost valid: { Self → Type 0 };

    /// The number of inputs.
    ghost arity: { Self → ℕ };

    /// The degree of the polynomial.
    ghost degree: { Self → ℕ };

    /// The value at words.
    ghost value: { Self → List ℕ → ℕ };

    /// The same formula at polynomials, which are lists of coefficients.
    ghost formula: { Self → List (List ℕ) → List ℕ };

    /// The number of inputs, 1 to 1,024.
    fn arity(&self) -> usize
        ensures number { result ≡ arity self.now }
        ensures valid { valid self.now };

    /// The degree, 1 to 8: at inputs that are polynomials of degree at most d, the result has degree at
    /// most d times this.
    fn degree(&self) -> usize
        ensures number { result ≡ degree self.now }
        ensures valid { valid self.now };

    /// The value at these inputs, as many as the arity.
    fn eval(&self, inputs: &[Fe]) -> Fe
        requires { length inputs.now ≡ arity self.now }
        ensures { result ≡ value self.now inputs.now };

    /// The gadget applied to polynomials and then evaluated is the gadget of their values, and where they
    /// have degree at most d it has degree at most d times the gadget's.
    ghost law: { (g : Self) → GadgetLaw (arity g) (degree g) (value g) (formula g) };

    /// The arity is 1 to 1,024 and the degree 1 to 8.
    ghost limits: { (g : Self) → valid g → IsWithinLimits (arity g) (degree g) };
}
