//! The commands that read a log.

/// A tool that reads a log.
#[derive(Clone, Copy)]
pub enum LogTool {
    /// Tells whether it is whole.
    Check,
    /// Prints its items.
    Show,
}
