//! The members of objects that a statement determines, which are made once for a view.
ghost use Rattle.std.specs.Prelude.{IfOk};
ghost use Rattle.bp_machine.specs.declared.tops.Top.{Top as TopOf};
ghost use Rattle.bp_view.specs.CallFacts.{next_at, next_by};
ghost use Rattle.bp_view.specs.Lines.{AreReady, AreReadyIn};
ghost use Rattle.bp_source.specs.declared.options.ViewFormat.{ViewFormat as ViewFormatOf};
ghost use Rattle.bp_view.specs.Views.{HaveMembers};
ghost use Rattle.bp_view.specs.declared.program_facts.ProgramFacts.{ProgramFacts as FactsOf};

use crate::program_facts::ProgramFacts;
use bp_machine::Top;
use bp_source::{SourceStatement, ViewFormat, column_of, line_of, name_at, push_two};
use bp_syntax::Proc;
use bp_text::Piece::{Key, NumberOrNull, Text, TextOrNull};
use bp_text::push_pieces;
use std::alloc::{AllocError, Global};

/// The members of a thread's next statement in the object of an attempt.
#[derive(Drop)]
pub(crate) struct StatementMembers {
    /// Its place and its procedure, and the key of the depth.
    front: Vec<u8>,
    /// Its text.
    text: Vec<u8>,
}

/// The members of a thread's next statement, as slices.
#[derive(Clone, Copy)]
pub(crate) struct ReadyMembers<'a> {
    pub(crate) front: &'a [u8],
    pub(crate) text: &'a [u8],
}

/// The members if a thread has ended.
const ENDED: ReadyMembers<'static> = ReadyMembers {
    front: b",\"line\":null,\"column\":null,\"procedure\":null,\"depth\":",
    text: b",\"statement\":null",
};

/// Returns the members of a statement.
fn members_of(
    alloc: Global,
    procs: &[Proc],
    statement: &SourceStatement,
) -> Result<StatementMembers, AllocError>
    ensures { (x : TopOf) → IfOk result (λ m.
        AreReady (next_at procs.now statement.now x) m.front.items m.text.items) }
{
    let (mut front, mut text) = (Vec::new(alloc), Vec::new(alloc));
    push_pieces(
        &mut front,
        &[
            Key(b"line"),
            NumberOrNull(line_of(statement.position)),
            Key(b"column"),
            NumberOrNull(column_of(statement.position)),
            Key(b"procedure"),
            TextOrNull(name_at(procs, statement.procedure)),
            Key(b"depth"),
        ],
    )?;
    push_two(&mut text, Key(b"statement"), Text(&statement.excerpt.text))?;
    Ok(StatementMembers { front, text })
}

/// Returns the members of each statement of a program, if a view of this format has objects.
pub(crate) fn members_of_statements(
    alloc: Global,
    program: &ProgramFacts<'_>,
    format: ViewFormat,
) -> Result<Vec<StatementMembers>, AllocError>
    ensures { IfOk result (λ v. HaveMembers format program.now v.items) }
{
    let mut members = Vec::new(alloc);
    if let ViewFormat::Columns = format {
        return Ok(members);
    }
    for statement in program.statements {
        members.push(members_of(alloc, program.procs, statement)?)?;
    }
    Ok(members)
}

/// Returns the members of a thread's next statement, if this is the top of its stack.
pub(crate) fn ready_members<'a>(
    members: &'a [StatementMembers],
    top: &Option<Top>,
) -> ReadyMembers<'a>
    ensures { (format : ViewFormatOf) (program : FactsOf)
        → HaveMembers format program members.entry.now
        → AreReadyIn format (next_by program top.now) result.front.now result.text.now }
{
    let Some(top) = top else {
        return ENDED;
    };
    match members.get(top.number as usize) {
        Some(members) => ReadyMembers {
            front: members.front.as_slice(),
            text: members.text.as_slice(),
        },
        None => ENDED,
    }
}
