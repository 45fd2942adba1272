ghost use Rattle.std.specs.Prelude.{◌≡◌, ◌++◌, [], ◌∷◌, OnOk};

use std::alloc::AllocError;

/// Adds an element at the end. If there is no memory for it, the element is dropped, and the error is for memory
/// alone: that of `Vec::push` would give it back.
pub fn push<T: Drop>(elements: &mut Vec<T>, element: T) -> Result<(), AllocError>
    ensures { OnOk result (elements.new.items ≡ elements.old.items ++ element ∷ []) }
{
    elements.push(element)?;
    Ok(())
}
