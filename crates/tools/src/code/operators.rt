//! How operators bind: the two topmost levels of the tree of an expression.

use bp_syntax::{Expr, Form, Op, Tree, read};
use std::alloc::Global;
use std::test::Fail;

/// Returns the sign of an expression's topmost operator, or a dot if it has none.
fn sign_of(expr: &Expr) -> u8 {
    match expr {
        Expr::Const(_) | Expr::Var(_) => b'.',
        Expr::Not(_) => b'!',
        Expr::Binary(Op::Equal, _, _) => b'=',
        Expr::Binary(Op::Differ, _, _) => b'#',
        Expr::Binary(Op::And, _, _) => b'&',
        Expr::Binary(Op::Xor, _, _) => b'^',
        Expr::Binary(Op::Or, _, _) => b'|',
        Expr::Binary(Op::Implies, _, _) => b'>',
    }
}

/// Returns the signs of an expression's left operand, of itself and of its right one, if any.
fn signs_of(expr: &Expr) -> Option<[u8; 3]> {
    match expr {
        Expr::Binary(_, left, right) => {
            Some([sign_of(left.get()), sign_of(expr), sign_of(right.get())])
        }
        _ => None,
    }
}

/// Returns the signs of the expression that the only statement of a program prints.
fn printed_signs(tree: &Tree) -> Option<[u8; 3]> {
    let [procedure] = tree.procs() else {
        return None;
    };
    let [statement] = procedure.body() else {
        return None;
    };
    match statement.form() {
        Form::Print(values) => signs_of(values.as_slice().first()?),
        _ => None,
    }
}

/// Programs that print an expression, and the signs of its two topmost levels: `>` for `=>` and `#`
/// for `!=`. Since the operands are in the order of the text, these levels determine the tree.
const ROWS: [(&[u8], [u8; 3]); 8] = [
    (b"main() begin print (a => b => c); end", *b".>>"),
    (b"main() begin print (!a = b); end", *b"!=."),
    (b"main() begin print (a | b & c ^ d); end", *b".|^"),
    (b"main() begin print (a = b != c); end", *b"=#."),
    (b"main() begin print (a != b = c); end", *b"#=."),
    (b"main() begin print (a & b & c); end", *b"&&."),
    (b"main() begin print (a ^ b ^ c); end", *b"^^."),
    (b"main() begin print (a | b | c); end", *b"||."),
];

/// Returns whether the text is read so that the expression has these signs.
fn is_read_so(alloc: Global, text: &[u8], signs: [u8; 3]) -> Result<bool, Fail> {
    Ok(printed_signs(&read(alloc, text)?) == Some(signs))
}

#[test]
fn operators_bind(rt: HostRuntime) -> Result<(), Fail> {
    for (text, signs) in ROWS {
        assert!(rt; is_read_so(rt.alloc(), text, signs)?, "{}", signs[1]);
    }
    Ok(())
}
