//! Laws of texts, of their cut and of the grammar.
ghost use Rattle.bp_syntax.specs.Refusals.{OneCut, OneTree, OneRefusal, NoRefusalOfPrograms, NamesOnOneLine};

/// Proves that each text has one cut.
pub fn has_one_cut()
    ensures { OneCut }
{}

/// Proves that a list of tokens has at most one tree.
pub fn has_one_tree()
    ensures { OneTree }
{}

/// Proves that a text has at most one refusal, `Memory` aside, and the text of a program has none.
pub fn has_one_refusal()
    ensures one { OneRefusal }
    ensures none { NoRefusalOfPrograms }
{}

/// Proves that a name of a program holds no line feed.
pub fn has_names_on_one_line()
    ensures { NamesOnOneLine }
{}
