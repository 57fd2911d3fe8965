//! The head of a view: the setup of the history.
ghost use Rattle.std.specs.Prelude.{◌≡◌, [], None, false, flat_map, slice_get, unwrap_or, IfOk};
ghost use Rattle.bp_flat.specs.Moves.{binding};
ghost use Rattle.bp_source.specs.Listings.{string_item};
ghost use Rattle.bp_view.specs.Buffers.{Grown};
ghost use Rattle.bp_view.specs.SetupLines.{globals_line, head_lines, head_object, limit_lines, seed_line, setup_head, thread_lines, view_head};
ghost use Rattle.bp_view.specs.Lines.{variables_text};

use crate::buffers::Buffer;
use crate::prefixes::push_headings;
use crate::variables::push_value;
use crate::view_contexts::ViewContext;
use bp_machine::Setup;
use bp_source::{ViewFormat, ViewOptions};
use bp_syntax::Name;
use bp_text::Piece::{Bytes, Key, Number, NumberOrNull, Text};
use std::alloc::{AllocError, Global};

/// Returns the name of a thread's entry procedure.
fn entry_of(setup: &Setup, thread: u32) -> &[u8]
    ensures { result.now ≡ unwrap_or (slice_get setup.now.entries thread) [] }
{
    match setup.entry(thread) {
        Some(name) => name.as_bytes(),
        None => b"",
    }
}

/// Adds a line for each thread: its number and its entry procedure.
fn push_threads(view: &mut Buffer, setup: &Setup)
    ensures { Grown view.old view.new (thread_lines 0 setup.now.entries) }
{
    for thread in 0..setup.threads() {
        view.put_pieces(&[
            Bytes(b"thread "),
            Number(u64::from(thread)),
            Bytes(b" begins in "),
            Bytes(entry_of(setup, thread)),
            Bytes(b"\n"),
        ]);
    }
}

/// Returns the initial value of a global, by its index in the declarations.
fn initial_bit(setup: &Setup, n: usize) -> bool
    ensures { result ≡ unwrap_or (slice_get setup.now.init n) false }
{
    setup.is_in_range();
    match u32::try_from(n) {
        Ok(n) => setup.init(n).unwrap_or(false),
        Err(_) => false,
    }
}

/// Adds the globals and their values.
fn push_values(view: &mut Buffer, format: ViewFormat, setup: &Setup, globals: &[Name])
    ensures { let values = binding globals.now setup.now.init in
        Grown view.old view.new (variables_text format None values) }
{
    for (n, name) in globals.iter().enumerate() {
        let text = name.text().as_bytes();
        push_value(view, format, None, text, initial_bit(setup, n));
    }
}

/// Adds the line of the initial values of the globals, if there are globals.
fn push_globals(view: &mut Buffer, setup: &Setup, globals: &[Name])
    ensures { Grown view.old view.new (globals_line (binding globals.now setup.now.init)) }
{
    if globals.is_empty() {
        return;
    }
    view.put(Bytes(b"globals"));
    push_values(view, ViewFormat::Columns, setup, globals);
    view.put(Bytes(b"\n"))
}

/// Adds the lines of the limits.
fn push_limit_lines(view: &mut Buffer, setup: &Setup)
    ensures { Grown view.old view.new (limit_lines setup.now) }
{
    view.put_pieces(&[
        Bytes(b"contexts at most "),
        Number(u64::from(setup.contexts())),
        Bytes(b"\n"),
        Bytes(b"calls of a thread at most "),
        Number(u64::from(setup.calls())),
        Bytes(b"\n"),
    ])
}

/// Adds the line of the seed.
fn push_seed(view: &mut Buffer, seed: Option<u64>)
    ensures { Grown view.old view.new (seed_line seed) }
{
    match seed {
        Some(seed) => view.put_three(Bytes(b"seed "), Number(seed), Bytes(b"\n")),
        None => view.put(Bytes(b"seed none\n")),
    }
}

/// Adds the lines of the setup: the entries, the globals, the limits and the seed, and an empty
/// line.
fn push_head_lines(head: &mut Buffer, setup: &Setup, globals: &[Name])
    ensures { Grown head.old head.new (head_lines globals.now setup.now) }
{
    push_threads(head, setup);
    push_globals(head, setup, globals);
    push_limit_lines(head, setup);
    push_seed(head, setup.seed());
    head.put(Bytes(b"\n"))
}

/// Adds the entries of the threads as items of a list.
fn push_entries(items: &mut Buffer, setup: &Setup)
    ensures { Grown items.old items.new (flat_map string_item setup.now.entries) }
{
    for thread in 0..setup.threads() {
        items.put_two(Bytes(b","), Text(entry_of(setup, thread)));
    }
}

/// Adds the object of the setup.
fn push_head_object(head: &mut Buffer, setup: &Setup, globals: &[Name])
    ensures { Grown head.old head.new (head_object globals.now setup.now) }
{
    let kind = b"{\"kind\":\"setup\",\"version\":2";
    head.put_two(Bytes(kind), Key(b"threads"));
    let entries = head.len();
    push_entries(head, setup);
    head.close_list(entries);
    head.put(Key(b"globals"));
    let values = head.len();
    push_values(head, ViewFormat::Json, setup, globals);
    head.close_list(values);
    head.put_pieces(&[
        Key(b"max_contexts"),
        Number(u64::from(setup.contexts())),
        Key(b"max_calls"),
        Number(u64::from(setup.calls())),
        Key(b"seed"),
        NumberOrNull(setup.seed()),
        Bytes(b"}\n"),
    ])
}

/// Adds the setup of a history, unless the view is brief.
fn push_setup(head: &mut Buffer, options: ViewOptions<'_>, setup: &Setup, globals: &[Name])
    ensures { Grown head.old head.new (setup_head options.entry globals.now setup.now) }
{
    if options.is_brief {
        return;
    }
    match options.format {
        ViewFormat::Columns => push_head_lines(head, setup, globals),
        ViewFormat::Json => push_head_object(head, setup, globals),
    }
}

/// Returns the head of a view: the setup of its history, and the headings over its columns.
pub(crate) fn head_of(
    alloc: Global,
    context: &ViewContext<'_>,
    setup: &Setup,
) -> Result<Vec<u8>, AllocError>
    ensures { let x = context.now in
        let head = view_head x.options x.program.globals.now setup.now x.widths in
        IfOk result (λ v. v.items ≡ head) }
{
    let options = context.options;
    let mut head = Buffer::new(alloc);
    push_setup(&mut head, options, setup, context.program.globals);
    push_headings(&mut head, options.format, context.widths);
    head.into_bytes()
}
