//! Values that are made by steps of which each may fail.

use std::mem;

/// The value, unless something went wrong as it was made: then it is let go.
pub fn value_after<T: Drop, E>(made: Result<(), E>, value: T) -> Result<T, E> {
    match made {
        Ok(()) => Ok(value),
        Err(fault) => {
            mem::drop(value);
            Err(fault)
        }
    }
}
