use std::alloc::AllocError;

/// Returns the places of two values whose comparison is wrong: a value must be equal to its clone,
/// and to no value at another place. `None` means that every comparison is right.
///
/// # Errors
///
/// Returns `AllocError` if the allocation for a clone fails.
pub fn mixed_up<T: Copy + PartialEq>(values: &[T]) -> Result<Option<(usize, usize)>, AllocError> {
    for (place, value) in values.iter().enumerate() {
        let copy = value.clone()?;
        for (other_place, other) in values.iter().enumerate() {
            if (copy == *other) != (place == other_place) {
                return Ok(Some((place, other_place)));
            }
        }
    }
    Ok(None)
}
