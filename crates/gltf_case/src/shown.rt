//! Values, as they print.
use std::alloc::{AllocError, Global};
use std::fmt::Debug;

/// What writes into a line answers.
pub type Written = Result<(), AllocError>;

/// Prints a value, which is dropped here.
pub fn show<T: Debug + Drop>(answer: Result<T, AllocError>, line: &mut String) -> Written {
    show_of(&answer, line)
}

/// Prints a value by reference.
fn show_of<T: Debug>(answer: &Result<T, AllocError>, line: &mut String) -> Written {
    match answer {
        Ok(it) => write!(line, "{it:?}"),
        Err(_) => line.push_str("out of memory"),
    }
}

/// Says where a copy prints otherwise than its source. The copy is dropped here.
pub fn tell_copy<T: Debug + Drop>(
    alloc: Global,
    copy: Result<T, AllocError>,
    source: &T,
    line: &mut String,
) -> Written {
    tell_copy_of(alloc, &copy, source, line)
}

/// Says where a copy prints otherwise than its source, by reference.
fn tell_copy_of<T: Debug>(
    alloc: Global,
    copy: &Result<T, AllocError>,
    source: &T,
    line: &mut String,
) -> Written {
    match copy {
        Ok(copy) => {
            if !prints_alike(alloc, copy, source)? {
                line.push_str(", and its copy differs")?;
            }
            Ok(())
        }
        Err(_) => line.push_str(", and there is no memory for a copy"),
    }
}

/// Whether two values print the same.
pub fn prints_alike<T: Debug>(alloc: Global, left: &T, right: &T) -> Result<bool, AllocError> {
    let left = format!(in alloc; "{left:?}")?;
    let right = format!(in alloc; "{right:?}")?;
    Ok(left.as_str() == right.as_str())
}
