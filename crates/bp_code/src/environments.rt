//! The meaning of the names in the statements of a procedure.
ghost use Rattle.std.specs.Prelude.{◌≡◌, ◌+◌, ◌^◌, ◌<◌, ◌≤◌, ℕ, List, length, map};
ghost use Rattle.bp_syntax.specs.Ast.{variables};
ghost use Rattle.bp_code.specs.Sets.{index_in};
ghost use Rattle.bp_flat.specs.declared.limits.TheConstants.{SLOTS};
ghost use Rattle.bp_code.specs.CompiledCode.{block_size, label_number};

use crate::layout::Layout;
use crate::tables::NameTable;
use bp_flat::headings::Heading;
use bp_syntax::Proc;

/// The globals, the procedures and their headings, and of one procedure its variables and the
/// layout of its instructions.
#[derive(Drop)]
pub(crate) struct Environment<'s, 'a> {
    pub(crate) globals: &'s NameTable<'a>,
    pub(crate) procs: &'s NameTable<'a>,
    pub(crate) headings: &'s [Heading],
    pub(crate) proc: &'a Proc,
    pub(crate) own: NameTable<'a>,
    pub(crate) layout: Layout<'a>,
    ghost few_globals: { length globals.now ≤ SLOTS },
    ghost few_variables: { length own ≤ SLOTS },
    ghost own_names: { own ≡ variables proc.now },
    ghost named: { map (λ h. h.name) headings.now ≡ map (λ n. n.text) procs.now },
    ghost short: { layout.start + block_size proc.now.body < 2 ^ 32 },
    ghost labelled: { (text : List ℕ)
        → index_in layout.labels text ≡ label_number proc.now.body layout.start text },
}
