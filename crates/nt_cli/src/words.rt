//! The words after the program's name.

ghost use Rattle.std.specs.Prelude.{◌≡◌, IfOk, IfSome, IsSome, IsErrOf, None, map, option_map, string_bytes};
ghost use Rattle.std.specs.Option.{option_copied};
ghost use Rattle.nt_cli.specs.Words.{number, value_count, log_tool, gen_tool, tool_of, file_of, outfile_of};
ghost use Rattle.nt_cli.specs.declared.words.UsageFault.TheVariants.{Memory};

use nt_log_tools::LogTool;
use nt_values::Text;
use std::alloc::{AllocError, Global};
use thiserror::Error;

/// The most values of a log that `gen` makes.
const MOST_VALUES: u64 = 100_000_000;

/// A tool: a command that waits for nobody, and ends.
#[derive(Clone, Copy)]
pub enum Tool {
    /// Reads the log in a file.
    Log(LogTool),
    /// Answers the lines of standard input.
    Desk,
    /// Makes a log of so many values of a seed.
    Gen { seed: u64, count: u32 },
}

/// Why words give no files.
#[derive(Clone, Copy, Debug, PartialEq, Eq, Error)]
pub enum UsageFault {
    /// No tool has these words.
    #[error("no tool has these words")]
    Words,
    /// Want of memory.
    #[error("out of memory")]
    Memory,
}

impl From<AllocError> for UsageFault {
    ghost from_gives = { λ _ e. e ≡ Memory };

    fn from(_error: AllocError) -> UsageFault {
        UsageFault::Memory
    }
}

/// The file that a tool reads and the file that it writes, where it has one.
#[derive(Drop)]
pub struct ToolFiles {
    pub source: Option<Text>,
    pub sink: Option<Text>,
}

/// The files of the tool that these words ask for.
///
/// # Errors
///
/// `Words` where no tool has these words, and want of memory.
pub fn tool_files(alloc: Global, words: &[String]) -> Result<ToolFiles, UsageFault>
    ensures files { IfOk result (λ files. IsSome (tool_of (map string_bytes words.now))
        × (files.source ≡ file_of (map string_bytes words.now))
        × (files.sink ≡ outfile_of (map string_bytes words.now))) }
    ensures words { IsErrOf result UsageFault.Words → tool_of (map string_bytes words.now) ≡ None }
{
    let Some((_, file)) = tool_of(words) else {
        return Err(UsageFault::Words);
    };
    Ok(ToolFiles {
        source: path(alloc, file)?,
        sink: path(alloc, outfile(words))?,
    })
}

/// A copy of the name of a file.
fn path(alloc: Global, file: Option<&str>) -> Result<Option<Text>, AllocError>
    ensures { IfOk result (λ path. path ≡ option_copied file.entry) }
{
    match file {
        Some(file) => Ok(Some(Text::of(alloc, file)?)),
        None => Ok(None),
    }
}

/// The tool that these words ask for, and the file that it reads.
pub fn tool_of(words: &[String]) -> Option<(Tool, Option<&str>)>
    ensures tool { option_map (λ asked. asked.0) result ≡ tool_of (map string_bytes words.now) }
    ensures file { IfSome result (λ asked. option_copied asked.1 ≡ file_of (map string_bytes words.now)) }
{
    match words {
        [command] if command.as_str() == "desk" => Some((Tool::Desk, None)),
        [command, file] => {
            let tool = log_tool(command.as_str())?;
            Some((Tool::Log(tool), Some(file.as_str())))
        }
        [command, seed, count, _] if command.as_str() == "gen" => {
            let tool = gen_tool(seed.as_str(), count.as_str())?;
            Some((tool, None))
        }
        _ => None,
    }
}

/// The file that a tool with these words writes.
fn outfile(words: &[String]) -> Option<&str>
    ensures { option_copied result ≡ outfile_of (map string_bytes words.now) }
{
    match words {
        [_, _, _, outfile] => Some(outfile.as_str()),
        _ => None,
    }
}

/// The tool of this name that reads the log in a file.
fn log_tool(command: &str) -> Option<LogTool>
    ensures { result ≡ log_tool command.now }
{
    match command {
        "check" => Some(LogTool::Check),
        "show" => Some(LogTool::Show),
        _ => None,
    }
}

/// The tool that makes a log of so many values of a seed.
fn gen_tool(seed: &str, count: &str) -> Option<Tool>
    ensures { result ≡ gen_tool seed.now count.now }
{
    let seed = number(seed)?;
    let count = value_count(count)?;
    Some(Tool::Gen { seed, count })
}

/// The number of values that a word writes.
fn value_count(word: &str) -> Option<u32>
    ensures { result ≡ value_count word.now }
{
    match number(word) {
        Some(count) if count <= MOST_VALUES => Some(count as u32),
        _ => None,
    }
}

/// The number that a word of decimal digits writes.
fn number(word: &str) -> Option<u64>
    ensures { result ≡ number word.now }
{
    match word.as_bytes() {
        // `parse` takes a sign too.
        [b'+', ..] => None,
        _ => word.parse().ok(),
    }
}
