// What a cell says of its value.
ghost use Rattle.std.specs.Prelude.{⊤};

/// A fact of each value that lies in a cell while this is shut. A type without fields stands for it, as
/// `Any` does for none.
pub trait Fits<T> {
    // The value may be shut in.
    ghost fits: { T → Type 0 };
}

/// No fact but what the type of the value says.
pub struct Any;

impl<T> Fits<T> for Any {
    ghost fits = { λ _. ⊤ };
}
