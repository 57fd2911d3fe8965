//! The head of a trace, and the line of it to which an error of its setup refers. Sentences on a
//! malformed line of a trace.
ghost use Rattle.std.specs.Prelude.{◌≡◌, ◌<◌, ◌^◌, nat_lt, IfOk};
ghost use Rattle.bp_machine.specs.declared.limits.TheConstants.{MAX_CONTEXTS};
ghost use Rattle.bp_machine.specs.Setups.{threads};
ghost use Rattle.bp_explain.specs.ExplainedErrors.{BeginsWithHead, IsReadHead, IsSetupLine};

use crate::traces::RefusedLine;
use bp_advice::{
    Count, ENDS_IN_CR_LF, Quoted, ends_in_cr_lf, first_procedure, near_entry, number_at_front,
    tree_of,
};
use bp_machine::SetupError;
use bp_machine::limits::{MAX_CALLS, MAX_CONTEXTS, MAX_THREADS};
use bp_syntax::Tree;
use bp_text::{line_of, part_from};
use bp_trace::limits::MAX_TRACE;
use bp_trace::{Head, ReplayError, read_head};
use std::alloc::{AllocError, Global};

/// The line of the first entry.
pub(crate) const FIRST_ENTRY: usize = 2;

/// Returns the head of a trace, if it has one.
pub(crate) fn head_of(alloc: Global, trace: &[u8]) -> Result<Option<Head<'_>>, AllocError>
    ensures { IfOk result (IsReadHead trace.now) }
{
    if trace.len() > MAX_TRACE {
        return Ok(None);
    }
    let error = match read_head(alloc, trace) {
        Ok(head) => return Ok(Some(head)),
        Err(error) => error,
    };
    match error {
        ReplayError::Head(_) => Ok(None),
        _ => Err(AllocError),
    }
}

/// Returns the number of threads of the head of a trace, and whether its contexts are too many.
fn numbers_of(trace: &[u8], head: &Option<Head<'_>>) -> (usize, bool)
    requires { IsReadHead trace.now head.now }
    ensures threads { (b : BeginsWithHead trace.now) → result.0 ≡ threads b.setup }
    ensures contexts { (b : BeginsWithHead trace.now)
        → result.1 ≡ nat_lt MAX_CONTEXTS b.setup.contexts }
    ensures few { result.0 < 2 ^ 63 }
{
    match head {
        Some(head) => (head.entries.len(), head.contexts > u64::from(MAX_CONTEXTS)),
        None => (0, false),
    }
}

/// Returns the line of a trace with this head to which an error of its setup refers.
pub(crate) fn line_of_setup(trace: &[u8], head: &Option<Head<'_>>, error: SetupError) -> usize
    requires { IsReadHead trace.now head.now }
    ensures { IsSetupLine trace.now error result }
{
    let (threads, has_many_contexts) = numbers_of(trace, head);
    match error {
        SetupError::Threads | SetupError::Memory if threads == 0 => FIRST_ENTRY,
        SetupError::Threads | SetupError::Memory => FIRST_ENTRY + MAX_THREADS,
        SetupError::UnknownEntry(thread) | SetupError::EntryHasFormals(thread) => {
            FIRST_ENTRY + thread as usize
        }
        SetupError::InitLength => FIRST_ENTRY + threads,
        SetupError::OutOfRange if has_many_contexts => FIRST_ENTRY + threads + 1,
        SetupError::OutOfRange => FIRST_ENTRY + threads + 2,
    }
}

/// Gives the number of formals of a procedure that is an entry.
pub(crate) fn formals_of(alloc: Global, tree: &Tree, entry: &[u8]) -> Result<String, AllocError> {
    let formals = first_procedure(tree, entry).map_or(0, |proc| proc.formals().len());
    let count = Count(formals, "formal");
    format!(in alloc; " has {count}; a thread begins with a procedure that has none")
}

impl RefusedLine<'_, '_> {
    /// Explains why the setup of the head does not fit the program.
    pub(crate) fn setup_sentence(&self, error: SetupError) -> Result<String, AllocError> {
        let alloc = self.alloc;
        let Some(tree) = &tree_of(alloc, self.program)? else {
            return Ok(String::new(alloc));
        };
        let text = self.text_of(self.number);
        let entry = part_from(text, b"entry ".len());
        match error {
            SetupError::Threads => format!(in alloc;
                "there must be 1 to {MAX_THREADS} threads, each with a line 'entry NAME'"
            ),
            SetupError::UnknownEntry(_) => {
                let near = near_entry(alloc, tree, entry)?;
                format!(in alloc; "there is no procedure {}{near}", Quoted(entry))
            }
            SetupError::EntryHasFormals(_) => {
                let formals = formals_of(alloc, tree, entry)?;
                format!(in alloc; "{}{formals}", Quoted(entry))
            }
            SetupError::InitLength => {
                let count = Count(tree.globals().len(), "global");
                format!(in alloc;
                    "expected one initial bit for each global; the program has {count}"
                )
            }
            SetupError::OutOfRange if text.starts_with(b"contexts ") => {
                format!(in alloc; "the contexts are at most {MAX_CONTEXTS}")
            }
            SetupError::OutOfRange => {
                format!(in alloc; "the calls of a thread are 1 to {MAX_CALLS}")
            }
            SetupError::Memory => Ok(String::new(alloc)),
        }
    }

    /// Returns the text of the line of this number.
    fn text_of(&self, number: usize) -> &[u8] {
        match line_of(self.trace, number) {
            Some(line) => line.text,
            None => b"",
        }
    }

    /// Returns the expected form of the line, which is of the head. The lines before are correct.
    fn due_in_head(&self) -> &'static str {
        let before = self.text_of(self.number.saturating_sub(1));
        if self.number == 1 {
            "'btrace 1' or 'btrace 2'"
        } else if before.starts_with(b"init ") {
            "'contexts N', with a decimal without leading zeros"
        } else if before.starts_with(b"contexts ") {
            "'calls N', with a decimal without leading zeros"
        } else if before.starts_with(b"calls ") {
            "'seed N', with a decimal without leading zeros, or 'seed none'"
        } else {
            "'entry NAME', or 'init BITS' with a digit 0 or 1 for each global, \
            or 'init -' without globals"
        }
    }

    /// Gives the expected form of the line, which is of the head.
    pub(crate) fn head_sentence(&self) -> Result<String, AllocError> {
        let (alloc, due) = (self.alloc, self.due_in_head());
        match line_of(self.trace, self.number) {
            None => format!(in alloc; "the trace ends here; expected {due}"),
            Some(line) if ends_in_cr_lf(line) => String::from_str(alloc, ENDS_IN_CR_LF),
            Some(line) if line.is_ended => format!(in alloc; "expected {due}"),
            Some(_) => format!(in alloc; "expected {due}, and a line feed after it"),
        }
    }

    /// Gives the expected form of the line, which is neither a line of attempts nor an end.
    pub(crate) fn body_sentence(&self) -> Result<String, AllocError> {
        let alloc = self.alloc;
        let before = self.text_of(self.number.saturating_sub(1));
        let (Some(line), Some(head)) = (line_of(self.trace, self.number), self.head) else {
            return Ok(String::new(alloc));
        };
        if before.starts_with(b"end ") {
            return format!(in alloc; "nothing may follow the end line");
        }
        let thread_of = |text| number_at_front(text).map(|(thread, _)| thread);
        let threads = head.entries.len();
        match thread_of(line.text) {
            Some(thread) if thread as usize >= threads => {
                let has = Count(threads, "thread");
                format!(in alloc;
                    "there is no thread {thread}: the trace has {has}, counted from 0"
                )
            }
            Some(thread) if self.is_version_two() && thread_of(before) == Some(thread) => {
                format!(in alloc;
                    "the line before is of thread {thread} too, and has all its successive calls"
                )
            }
            _ if !line.is_ended => format!(in alloc; "there is no line feed after this line"),
            _ if ends_in_cr_lf(line) => String::from_str(alloc, ENDS_IN_CR_LF),
            _ if self.is_version_two() => format!(in alloc;
                "expected a line as '0 1s0s', a thread and then the choice bit \
                and the letter of the reply of each call, or 'end CALLS OPEN'"
            ),
            _ => format!(in alloc;
                "expected a line as '0 1 s', a thread, a choice bit and the letter of the reply, \
                or 'end CALLS OPEN'"
            ),
        }
    }
}
