//! The layout of the instructions of a procedure: the number of each statement's instructions, and
//! the numbers of its labels, from one walk.
ghost use Rattle.std.specs.Prelude.{◌≡◌, ◌+◌, ◌^◌, ◌<◌, ◌≤◌, ◌++◌, ◌∷◌, ℕ, List, None, Some, if◌then◌else◌, IfOk, OnOk, length};
ghost use Rattle.std.specs.Option.{option_or};
ghost use Rattle.bp_syntax.specs.Blocks.{block_of, statement_of};
ghost use Rattle.bp_flat.specs.Moves.{has_label};
ghost use Rattle.bp_code.specs.Sets.{index_in};
ghost use Rattle.bp_code.specs.CompiledCode.{block_size, size, label_number, inner_number};
ghost use Rattle.bp_code.specs.CompilablePrograms.{block_sizes, inner_sizes, AreSizesOf};

use bp_syntax::{Form, Name, Proc, Stmt};
use std::alloc::{AllocError, Global};
use std::collections::BTreeMap;

/// The number of a procedure's first instruction, the sizes of its statements in the order of the
/// text, and the number of each of its labels.
#[derive(Drop)]
pub(crate) struct Layout<'a> {
    start: u32,
    sizes: Vec<u32>,
    labels: BTreeMap<&'a str, u32>,
}

impl<'a> Layout<'a> {
    /// Makes the layout of a procedure whose first instruction has the number `start`.
    pub(crate) fn new(alloc: Global, proc: &'a Proc, start: u32) -> Result<Layout<'a>, AllocError>
        requires { start + block_size proc.now.body < 2 ^ 32 }
        ensures start { IfOk result (λ l. l.start ≡ start) }
        ensures sizes { IfOk result (λ l. l.sizes.items ≡ block_sizes proc.now.body) }
        ensures labels { IfOk result (λ l. (text : List ℕ)
            → index_in l.labels text ≡ label_number proc.now.body start text) }
    {
        let mut sizes = Vec::new(alloc);
        let mut labels = BTreeMap::new(alloc);
        record_block(&mut sizes, &mut labels, start, proc.body())?;
        Ok(Layout {
            start,
            sizes,
            labels,
        })
    }

    /// Returns the number of instructions of the statement of this number.
    pub(crate) fn size_at(&self, number: u32) -> u32
        requires { (n : ℕ) × (more : List ℕ) × AreSizesOf self.now number (n ∷ more) }
        ensures { (n : ℕ) (more : List ℕ)
            → AreSizesOf self.now number (n ∷ more)
            → result ≡ n }
    {
        self.sizes[(number - self.start) as usize]
    }

    /// Returns the number of instructions of the statements. The first has this number.
    pub(crate) fn size_of_block(&self, stmts: &[Stmt], number: u32) -> u32
        requires room { number + block_size (block_of stmts.now) < 2 ^ 32 }
        requires placed { let sizes = block_sizes (block_of stmts.now) in
            AreSizesOf self.now number sizes }
        ensures { result ≡ block_size (block_of stmts.now) }
    {
        let mut total = 0;
        for _stmt in stmts {
            total += self.size_at(number + total);
        }
        total
    }

    /// Returns the number of the procedure's first instruction.
    pub(crate) fn start(&self) -> u32
        ensures { result ≡ self.now.start }
    {
        self.start
    }

    /// Returns the number of instructions of the procedure's statements.
    pub(crate) fn len(&self) -> usize
        ensures { result ≡ length self.now.sizes.items }
    {
        self.sizes.len()
    }

    /// Returns the number of the statement with this label.
    pub(crate) fn label(&self, text: &str) -> Option<u32>
        ensures { result ≡ index_in self.now.labels text.now }
    {
        self.labels.get(text).copied()
    }
}

/// Appends the sizes and labels of statements.
#[cycle(note)]
fn record_block<'a>(
    sizes: &mut Vec<u32>,
    labels: &mut BTreeMap<&'a str, u32>,
    start: u32,
    stmts: &'a [Stmt],
) -> Result<(), AllocError>
    requires { start + length sizes.old.items + block_size (block_of stmts.now) < 2 ^ 32 }
    ensures sizes { OnOk result
        (sizes.new.items ≡ sizes.old.items ++ block_sizes (block_of stmts.now)) }
    ensures labels { OnOk result ((text : List ℕ)
        → let number = start + length sizes.old.items in
        let found = label_number (block_of stmts.now) number text in
        index_in labels.new text ≡ option_or (index_in labels.old text) found) }
{
    for stmt in stmts {
        note(sizes, labels, start, stmt)?;
    }
    Ok(())
}

/// Appends a statement and those inside it. Its own size is known after them.
#[cycle(note)]
fn note<'a>(
    sizes: &mut Vec<u32>,
    labels: &mut BTreeMap<&'a str, u32>,
    start: u32,
    stmt: &'a Stmt,
) -> Result<(), AllocError>
    requires { start + length sizes.old.items + size (statement_of stmt.now.form) < 2 ^ 32 }
    ensures sizes { let statement = statement_of stmt.now.form in
        OnOk result
        (sizes.new.items ≡ sizes.old.items ++ (size statement ∷ inner_sizes statement)) }
    ensures labels { OnOk result ((text : List ℕ)
        → let number = start + length sizes.old.items in
        let inside = inner_number (statement_of stmt.now.form) number text in
        let found = if has_label stmt.now.label text then Some number else inside in
        index_in labels.new text ≡ option_or (index_in labels.old text) found) }
{
    let index = sizes.len();
    if let Some(label) = stmt.label() {
        record_label(labels, label, start + index as u32)?;
    }
    sizes.push(0)?;
    record_inside(sizes, labels, start, stmt.form())?;
    sizes[index] = (sizes.len() - index) as u32;
    Ok(())
}

/// Appends the statements inside a statement, which is the last one appended.
#[cycle(note)]
fn record_inside<'a>(
    sizes: &mut Vec<u32>,
    labels: &mut BTreeMap<&'a str, u32>,
    start: u32,
    form: &'a Form,
) -> Result<(), AllocError>
    requires { start + length sizes.old.items + size (statement_of form.now) ≤ 2 ^ 32 }
    ensures sizes { OnOk result
        (sizes.new.items ≡ sizes.old.items ++ inner_sizes (statement_of form.now)) }
    ensures labels { OnOk result ((number : ℕ) (text : List ℕ)
        → number + 1 ≡ start + length sizes.old.items
        → let found = inner_number (statement_of form.now) number text in
        index_in labels.new text ≡ option_or (index_in labels.old text) found) }
{
    match form {
        Form::If(_, a, b) => {
            record_block(sizes, labels, start, a.as_slice())?;
            record_block(sizes, labels, start, b.as_slice())
        }
        Form::While(_, body) => record_block(sizes, labels, start, body.as_slice()),
        _ => Ok(()),
    }
}

/// Records the number of a label, unless an earlier one has this text.
fn record_label<'a>(
    labels: &mut BTreeMap<&'a str, u32>,
    label: &'a Name,
    number: u32,
) -> Result<(), AllocError>
    ensures { OnOk result ((text : List ℕ)
        → let found = if has_label (Some label.now) text then Some number else None in
        index_in labels.new text ≡ option_or (index_in labels.old text) found) }
{
    let text = label.text();
    if labels.get(text).is_none() {
        labels.insert(text, number)?;
    }
    Ok(())
}

/// Returns the number of instructions of the statements.
#[cycle(size)]
pub(crate) fn size_of_block(stmts: &[Stmt]) -> u32
    requires { block_size (block_of stmts.now) < 2 ^ 32 }
    ensures { result ≡ block_size (block_of stmts.now) }
{
    let mut total = 0;
    for stmt in stmts {
        total += size_of(stmt.form());
    }
    total
}

/// Returns the number of instructions of a statement.
#[cycle(size)]
fn size_of(form: &Form) -> u32
    requires { size (statement_of form.now) < 2 ^ 32 }
    ensures { result ≡ size (statement_of form.now) }
{
    match form {
        Form::If(_, a, b) => 1 + (size_of_block(a.as_slice()) + size_of_block(b.as_slice())),
        Form::While(_, body) => 1 + size_of_block(body.as_slice()),
        _ => 1,
    }
}
