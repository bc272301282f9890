// How a value is shown.
use std::fmt;

/// Shows what stands before a value, and the value. In place of a `write!`, each of which is proved anew.
pub(crate) fn show<W: fmt::Write, T: fmt::Display>(
    f: &mut fmt::Formatter<W>,
    before: &str,
    value: &T,
) -> fmt::Result {
    f.write_str(before)?;
    value.fmt(f)
}
