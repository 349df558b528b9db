//! What is printed of a history.
use anyhow::Result;

/// Prints how many of a history's calls are answered as they must be.
pub(crate) fn tell<R: AllocGlobal + Print>(
    rt: &R,
    part: &str,
    history: &str,
    answered: usize,
    calls: usize,
) -> Result<()> {
    println!(rt; "{part} {history}: {answered} of {calls}")?;
    Ok(())
}
