//! What was seen beside what is wanted, as text.
use std::alloc::AllocError;
use std::mem;

// Adds to the report what a row comes to, where something other was seen than is wanted.
fn push_other(report: &mut String, row: &str, seen: &str, wanted: &str) -> Result<(), AllocError> {
    if seen == wanted {
        return Ok(());
    }
    writeln!(report, "{row}\nwas\n{seen}")
}

// Adds to the report what a row comes to, where another text was seen than is wanted. The text is let go.
pub(crate) fn push_other_text(
    report: &mut String,
    row: &str,
    seen: String,
    wanted: &str,
) -> Result<(), AllocError> {
    let pushed = push_other(report, row, seen.as_str(), wanted);
    mem::drop(seen);
    pushed
}
