//! The names of the bits of a store, and their values.
//! The object of an attempt in JSON, from its facts.
ghost use Rattle.std.specs.Prelude.{◌≡◌, ◌<◌, ◌+◌, ◌^◌, ◌++◌, ◌∷◌, [], codes, length, option_map, flat_map};
ghost use Rattle.std.specs.List.{concat};
ghost use Rattle.bp_text.specs.Pieces.{bit_or_null, bit_text, key_text, string_text, truth_text};
ghost use Rattle.bp_flat.specs.InstrEffects.{bits_of};
ghost use Rattle.bp_flat.specs.StandsFor.{valuation_of};
ghost use Rattle.bp_source.specs.declared.options.ViewFormat.TheVariants.{Json};
ghost use Rattle.bp_view.specs.Buffers.{Grown};
ghost use Rattle.bp_view.specs.CallFacts.{facts_in};
ghost use Rattle.bp_view.specs.Lines.{owner_text, variable_object, variable_text, assignment_text, variables_text, bit_item, call_object, AreReady, first_members, member_texts, printed_text, reply_name};

use crate::buffers::Buffer;
use crate::call_facts::CallFacts;
use crate::lines::push_changed;
use crate::statement_members::ReadyMembers;
use bp_flat::bit_of;
use bp_machine::Reply;
use bp_source::{ViewFormat, wide};
use bp_syntax::{Name, Proc};
use bp_text::Piece::{Bit, Bytes, Number, NumberOrNull, Text, TextOrNull};

/// Adds the name of a local's procedure and a dot; nothing for a global.
fn push_owner(line: &mut Buffer, owner: Option<&Proc>)
    ensures { let owner = option_map (λ p. p.now) owner.entry in
        Grown line.old line.new (owner_text owner) }
{
    if let Some(proc) = owner {
        line.put_two(Bytes(proc.name().text().as_bytes()), Bytes(b"."));
    }
}

/// Returns the sign before a value, and the value.
fn value_text(value: bool) -> &'static [u8]
    ensures { result.now ≡ concat (codes "=" ∷ bit_text value ∷ []) }
{
    if value { b"=1" } else { b"=0" }
}

/// Adds a variable and its value, for people.
fn push_assignment(line: &mut Buffer, owner: Option<&Proc>, name: &[u8], value: bool)
    ensures { let owner = option_map (λ p. p.now) owner.entry in
        Grown line.old line.new (assignment_text owner name.now value) }
{
    line.put(Bytes(b" "));
    push_owner(line, owner);
    line.put_two(Bytes(name), Bytes(value_text(value)))
}

/// Returns the name of a local's procedure, or None for a global.
fn owner_name<'a>(owner: Option<&'a Proc>) -> Option<&'a [u8]>
    ensures { let owner = option_map (λ p. p.now) owner.entry in
        option_map (λ s. s.now) result ≡ option_map (λ p. p.name.text) owner }
{
    match owner {
        Some(proc) => Some(proc.name().text().as_bytes()),
        None => None,
    }
}

/// Adds a variable and its value as an object of JSON, after a comma.
fn push_variable_object(line: &mut Buffer, owner: Option<&Proc>, name: &[u8], value: bool)
    ensures { let owner = option_map (λ p. p.now) owner.entry in
        Grown line.old line.new (variable_object owner name.now value) }
{
    line.put_four(
        Bytes(b",{\"procedure\":"),
        TextOrNull(owner_name(owner)),
        Bytes(b",\"name\":"),
        Text(name),
    );
    line.put_three(Bytes(b",\"value\":"), Bit(value), Bytes(b"}"))
}

/// Adds a variable and its value; the variable is a local of its owner, or a global.
pub(crate) fn push_value(
    line: &mut Buffer,
    format: ViewFormat,
    owner: Option<&Proc>,
    name: &[u8],
    value: bool,
)
    ensures { let owner = option_map (λ p. p.now) owner.entry in
        Grown line.old line.new (variable_text format owner name.now value) }
{
    match format {
        ViewFormat::Columns => push_assignment(line, owner, name, value),
        ViewFormat::Json => push_variable_object(line, owner, name, value),
    }
}

/// Adds the values of the names. The first name has this slot.
pub(crate) fn push_values(
    line: &mut Buffer,
    format: ViewFormat,
    owner: Option<&Proc>,
    names: &[Name],
    first: usize,
    word: u128,
)
    requires { first + length names.now < 2 ^ 64 }
    ensures { let owner = option_map (λ p. p.now) owner.entry in
        let values = valuation_of names.now (λ k. bits_of word (first + k)) in
        Grown line.old line.new (variables_text format owner values) }
{
    for (n, name) in names.iter().enumerate() {
        let bit = bit_of(word, first + n);
        push_value(line, format, owner, name.text().as_bytes(), bit);
    }
}

/// Returns the name of a reply, as a string of JSON.
fn reply_text(reply: Reply) -> &'static [u8]
    ensures { result.now ≡ string_text (reply_name reply) }
{
    match reply {
        Reply::Stopped => b"\"stopped\"",
        Reply::Ended => b"\"ended\"",
        Reply::NoContexts => b"\"out_of_contexts\"",
        Reply::Full => b"\"stack_full\"",
        Reply::Blocked => b"\"waits\"",
        Reply::Failed => b"\"failed\"",
        Reply::Stepped => b"\"stepped\"",
    }
}

/// Returns the member that says whether a step is a switch.
fn switch_member(is_switch: bool) -> &'static [u8]
    ensures { result.now ≡ key_text (codes "switch") ++ truth_text is_switch }
{
    if is_switch {
        b",\"switch\":true"
    } else {
        b",\"switch\":false"
    }
}

/// Returns the member with a choice.
fn choice_member(choice: Option<bool>) -> &'static [u8]
    ensures { result.now ≡ key_text (codes "choice") ++ bit_or_null choice }
{
    match choice {
        Some(true) => b",\"choice\":1",
        Some(false) => b",\"choice\":0",
        None => b",\"choice\":null",
    }
}

/// Adds the first members of an attempt: its kind, its number, its thread and its context.
fn push_first_members(line: &mut Buffer, facts: &CallFacts<'_>)
    ensures { Grown line.old line.new (concat (first_members (facts_in facts.now))) }
{
    // A key is one piece with the signs around it, since a piece for each takes longer.
    line.put_two(
        Bytes(b"{\"kind\":\"call\",\"number\":"),
        Number(facts.number),
    );
    line.put_four(
        Bytes(b",\"thread\":"),
        Number(u64::from(facts.call.thread)),
        Bytes(b",\"context\":"),
        NumberOrNull(wide(facts.context)),
    )
}

/// Adds the other members of an attempt that have one value each. Those of its thread's next
/// statement are ready.
fn push_members(line: &mut Buffer, facts: &CallFacts<'_>, ready: ReadyMembers<'_>)
    ensures { let f = facts_in facts.now in
        AreReady f.next ready.entry.front.now ready.entry.text.now
        → Grown line.old line.new (concat (member_texts f)) }
{
    line.put_two(Bytes(switch_member(facts.is_switch)), Bytes(ready.front));
    line.put_two(Number(facts.next.depth as u64), Bytes(ready.text));
    line.put_three(
        Bytes(choice_member(facts.choice())),
        Bytes(b",\"reply\":"),
        Bytes(reply_text(facts.call.reply)),
    )
}

/// Adds the bits as items of a list.
fn push_bit_items(items: &mut Buffer, bits: &[bool])
    ensures { Grown items.old items.new (flat_map bit_item bits.now) }
{
    for bit in bits {
        items.put_two(Bytes(b","), Bit(*bit));
    }
}

/// Adds the values that an attempt printed, or null.
fn push_printed(line: &mut Buffer, printed: Option<&[bool]>)
    ensures { let printed = printed_text (option_map (λ v. v.now) printed.entry) in
        Grown line.old line.new printed }
{
    let Some(values) = printed else {
        return line.put(Bytes(b"null"));
    };
    let start = line.len();
    push_bit_items(line, values);
    line.close_list(start)
}

/// Adds the object of an attempt that printed these values, if any. The members of its
/// thread's next statement are ready.
#[inline(never)]
pub(crate) fn push_object(
    line: &mut Buffer,
    facts: &CallFacts<'_>,
    ready: ReadyMembers<'_>,
    printed: Option<&[bool]>,
)
    ensures { let printed = option_map (λ v. v.now) printed.entry in
        let f = facts_in facts.now in
        AreReady f.next ready.entry.front.now ready.entry.text.now
        → Grown line.old line.new (call_object f printed) }
{
    push_first_members(line, facts);
    push_members(line, facts, ready);
    line.put(Bytes(b",\"changes\":"));
    let start = line.len();
    push_changed(line, ViewFormat::Json, facts.changes);
    line.close_list(start);
    line.put(Bytes(b",\"printed\":"));
    push_printed(line, printed);
    line.put(Bytes(b"}\n"))
}
