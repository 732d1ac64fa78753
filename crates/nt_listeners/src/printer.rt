//! A listener that prints what it hears.

ghost use Rattle.std.specs.Prelude.{◌≡◌, ◌≤◌, ◌++◌, OnOk, IfOk, IfErr, MatchResult, codes, string_bytes};
ghost use Rattle.std.specs.Io.KnownBytes.{Appends};
ghost use Rattle.nt_link.specs.Causes.{Rose, StaysAtEnd};
ghost use Rattle.nt_change_lines.specs.ChangeLines.{change_line};
ghost use Rattle.nt_listeners.specs.Matching.{with_change};
ghost use Rattle.nt_listeners.specs.Memory.{untold};
ghost use Rattle.nt_listeners.specs.declared.listener.Refused.TheVariants.{Failed, Memory};

use crate::listener::{Listener, Refused};
use nt_change_lines::append_change;
use nt_link::{Sink, write_all};
use nt_rules::Change;
use std::alloc::{AllocError, Global};
use std::marker::Model;

/// A listener that writes the line of each change to a sink.
#[derive(Drop)]
pub struct Printer<O: Sink> {
    alloc: Global,
    out: O,
    refusals: u64,
}

impl<O: Sink> Model for Printer<O> {
    ghost use Rattle.nt_listeners.specs.Memory.{Printing};

    ghost Value = { Printing O };

    ghost view = { λ p. record { out = p.out; refusals = p.refusals } };
}

impl<O: Sink> Printer<O> {
    /// A printer to this sink. It takes no memory.
    pub fn new(alloc: Global, out: O) -> Printer<O>
        ensures { result ≡ record { out = out; refusals = 0 } }
    {
        Printer {
            alloc,
            out,
            refusals: 0,
        }
    }

    /// The sink.
    pub fn into_sink(self) -> O
        ensures { result ≡ self.out }
    {
        self.out
    }
}

/// The line of a change, with its line feed.
fn line_of(alloc: Global, change: &Change) -> Result<String, AllocError>
    ensures { IfOk result (λ line. string_bytes line ≡ change_line change.now ++ codes "\n") }
{
    let mut line = String::new(alloc);
    append_change(&mut line, change)?;
    line.push_str("\n")?;
    Ok(line)
}

impl<O: Sink + Drop> Listener for Printer<O> {
    ghost heard = { λ _. untold };

    ghost refusals = { λ p. p.refusals };

    ghost may_answer = { λ _ _ _. Unit {0} };

    /// Writes the line of a change, with its line feed.
    ///
    /// # Errors
    ///
    /// `Failed` comes only where the sink's count of faults rose. `Memory` comes where the line found none, and
    /// nothing was written then.
    fn hear(&mut self, change: &Change) -> Result<(), Refused>
        ensures heard { MatchResult result (λ _. untold ≡ with_change change.now untold) (λ _. untold ≡ untold) }
        ensures answer { Unit {0} }
        ensures cause { IfErr result (λ e. e ≡ Failed → Rose self.old.refusals self.new.refusals) }
        ensures later { self.old.refusals ≤ self.new.refusals }
        ensures end { StaysAtEnd self.old.refusals self.new.refusals }

        ensures written { OnOk result (Appends (O.taken self.old.out) (O.taken self.new.out)
            (change_line change.now ++ codes "\n")) }
        ensures failed { IfErr result (λ e. e ≡ Failed → Rose (O.faults self.old.out) (O.faults self.new.out)) }
        ensures memory { IfErr result (λ e. e ≡ Memory → self.new ≡ self.old) }
    {
        let line = line_of(self.alloc, change)?;
        if write_all(&mut self.out, line.as_bytes()).is_err() {
            self.refusals = self.refusals.saturating_add(1);
            return Err(Refused::Failed);
        }
        Ok(())
    }

    /// It keeps nothing.
    fn told(&self) -> Option<&[Change]> {
        None
    }
}
