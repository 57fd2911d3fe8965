//! The version of the program, and the commit that it is of, if known.

/// `git archive` writes the commit in place of the mark. A clone keeps the mark, since no commit
/// can name itself.
const VERSION: &str = "0.1.0 ($Format:%h$)";

/// Returns the version, with the commit if it was written.
pub(crate) fn version() -> &'static str {
    match VERSION.split_once(" ($") {
        Some((version, _)) => version,
        None => VERSION,
    }
}
