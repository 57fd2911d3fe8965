//! Names of variables, procedures and labels.
ghost use Rattle.std.specs.Prelude.{◌≡◌, string_bytes};

use std::marker::Model;

/// A name as written, braces included, and its place in the text.
#[derive(Drop)]
pub struct Name {
    text: String,
    at: u32,
}

impl Model for Name {
    ghost use Rattle.std.specs.Prelude.{string_bytes};
    ghost use Rattle.bp_syntax.specs.Ast as ast;
    ghost use Rattle.bp_syntax.specs.Codes.{coded_name};

    ghost Value = { ast.Name };

    ghost coded = { coded_name };

    ghost view = { λ n. record { text = string_bytes n.text; at = n.at } };
}

impl Name {
    /// Makes a name of this text, whose first byte is the byte `at` of the program text, from 0.
    pub fn new(text: String, at: u32) -> Name
        ensures { result ≡ record { text = string_bytes text; at = at } }
    {
        Name { text, at }
    }

    /// Returns the text, braces included. Two names are equal if their texts are.
    pub fn text(&self) -> &str
        ensures { result.now ≡ self.now.text }
    {
        self.text.as_str()
    }

    /// Returns the offset of the first byte in the program text.
    pub fn at(&self) -> u32
        ensures { result ≡ self.now.at }
    {
        self.at
    }
}

/// Names in order, as a declaration or the left side of an assignment has them.
#[derive(Drop)]
pub struct Names {
    items: Vec<Name>,
}

impl Model for Names {
    ghost use Rattle.std.specs.Prelude.{List};
    ghost use Rattle.std.specs.Coded.{coded_list};
    ghost use Rattle.bp_syntax.specs.Ast as ast;
    ghost use Rattle.bp_syntax.specs.Codes.{coded_name};

    ghost Value = { List ast.Name };

    ghost coded = { coded_list coded_name };

    ghost view = { λ n. n.items.items };
}

impl Names {
    /// Takes over a vector, whose order is that of the text.
    pub fn new(items: Vec<Name>) -> Names
        ensures { result ≡ items.items }
    {
        Names { items }
    }

    /// Returns the names, in order.
    pub fn as_slice(&self) -> &[Name]
        ensures { result.now ≡ self.now }
    {
        self.items.as_slice()
    }
}
