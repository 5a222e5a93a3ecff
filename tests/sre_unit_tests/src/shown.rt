//! Printed values.

use std::alloc::Global;
use std::fmt::Display;

/// Whether a value is printed as this text.
pub fn is_shown<T: Display>(alloc: Global, value: &T, text: &str) -> bool {
    match format!(in alloc; "{value}") {
        Ok(shown) => shown.as_str() == text,
        Err(_) => false,
    }
}
