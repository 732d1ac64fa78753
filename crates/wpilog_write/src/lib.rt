//! What a WPILOG data log holds: its items, their writer, and in specs/ the grammar by which bytes spell them.
#![tactic(auto)]

mod item;
mod laws;
mod record;
mod refused;
mod writer;

pub use item::{ByteTexts, Entries, LogItem, LogType, LogValue, note_item};
pub use laws::{writing_is_a_log, written_logs_are_lawful, written_records_are_lawful};
pub use record::{header_with, put_payload, put_record};
pub use refused::WriteRefused;
pub use writer::LogWriter;
