//! The kinds of lexemes and of tokens, the bytes of each, and a spelling of each kind of token.
ghost use Rattle.std.specs.Prelude.{◌≡◌};
ghost use Rattle.bp_syntax.specs.Tokens as spelling;
ghost use Rattle.bp_syntax.specs.Tokens.{IsReal};
ghost use Rattle.bp_syntax.specs.Spellings.{spelling};

/// The kind of a lexeme. Reserved words are identifiers here.
#[derive(Clone, Copy, PartialEq, Eq)]
pub enum LexemeKind {
    White,
    Comment,
    Identifier,
    Braced,
    Constant,
    Symbol,
}

/// The kind of a token: a name, a constant, a symbol or a reserved word.
#[derive(Clone, Copy, PartialEq, Eq)]
pub enum TokenKind {
    Name,
    Zero,
    One,
    Semicolon,
    Comma,
    Open,
    Close,
    Colon,
    Becomes,
    Bar,
    Ampersand,
    Caret,
    Equal,
    Differ,
    Implies,
    Bang,
    Question,
    Decl,
    Begin,
    End,
    Skip,
    Goto,
    Return,
    If,
    Then,
    Else,
    Fi,
    While,
    Do,
    Od,
    Assert,
    Print,
    Assume,
}

/// A token: its kind, the offset of its first byte, its bytes.
#[derive(Clone, Copy)]
pub(crate) struct Token<'a> {
    pub(crate) kind: TokenKind,
    pub(crate) at: u32,
    pub(crate) text: &'a str,
}

/// Returns whether the byte is a space, a tab, a line feed or a carriage return.
pub(crate) fn is_white(b: u8) -> bool
    ensures { result ≡ spelling.is_white b }
{
    b == b' ' || b == b'\t' || b == b'\n' || b == b'\r'
}

/// Returns whether an identifier may begin with the byte.
pub(crate) fn is_letter(b: u8) -> bool
    ensures { result ≡ spelling.is_letter b }
{
    b.is_ascii_alphabetic() || b == b'_'
}

/// Returns whether an identifier may continue with the byte.
pub(crate) fn is_word_byte(b: u8) -> bool
    ensures { result ≡ spelling.is_word_byte b }
{
    b.is_ascii_alphanumeric() || b == b'_'
}

/// Returns whether a comment may continue with the byte.
pub(crate) fn is_comment_byte(b: u8) -> bool
    ensures { result ≡ spelling.is_comment_byte b }
{
    b != b'\n'
}

/// Returns whether a braced name may have the byte inside.
pub(crate) fn is_braced_byte(b: u8) -> bool
    ensures { result ≡ spelling.is_braced_byte b }
{
    32 <= b && b <= 126 && b != b'}'
}

/// Returns the kind of the constant with this byte.
pub(crate) fn constant(b: u8) -> Option<TokenKind>
    ensures { result ≡ spelling.constant b }
{
    match b {
        b'0' => Some(TokenKind::Zero),
        b'1' => Some(TokenKind::One),
        _ => None,
    }
}

/// Returns the kind of the symbol with this byte.
pub(crate) fn symbol(b: u8) -> Option<TokenKind>
    ensures { result ≡ spelling.symbol b }
{
    match b {
        b';' => Some(TokenKind::Semicolon),
        b',' => Some(TokenKind::Comma),
        b'(' => Some(TokenKind::Open),
        b')' => Some(TokenKind::Close),
        b':' => Some(TokenKind::Colon),
        b'|' => Some(TokenKind::Bar),
        b'&' => Some(TokenKind::Ampersand),
        b'^' => Some(TokenKind::Caret),
        b'=' => Some(TokenKind::Equal),
        b'!' => Some(TokenKind::Bang),
        b'?' => Some(TokenKind::Question),
        _ => None,
    }
}

/// Returns the kind of the symbol with these two bytes.
pub(crate) fn long_symbol(b: u8, c: u8) -> Option<TokenKind>
    ensures { result ≡ spelling.long_symbol b c }
{
    if b == b':' && c == b'=' {
        Some(TokenKind::Becomes)
    } else if b == b'!' && c == b'=' {
        Some(TokenKind::Differ)
    } else if b == b'=' && c == b'>' {
        Some(TokenKind::Implies)
    } else {
        None
    }
}

/// Returns the kind of the reserved word with these bytes.
fn reserved_word(text: &[u8]) -> Option<TokenKind>
    ensures { result ≡ spelling.reserved_word text.now }
{
    match text {
        b"decl" => Some(TokenKind::Decl),
        b"begin" => Some(TokenKind::Begin),
        b"end" => Some(TokenKind::End),
        b"skip" => Some(TokenKind::Skip),
        b"goto" => Some(TokenKind::Goto),
        b"return" => Some(TokenKind::Return),
        b"if" => Some(TokenKind::If),
        b"then" => Some(TokenKind::Then),
        b"else" => Some(TokenKind::Else),
        b"fi" => Some(TokenKind::Fi),
        b"while" => Some(TokenKind::While),
        b"do" => Some(TokenKind::Do),
        b"od" => Some(TokenKind::Od),
        b"assert" => Some(TokenKind::Assert),
        b"print" => Some(TokenKind::Print),
        b"assume" => Some(TokenKind::Assume),
        _ => None,
    }
}

/// Returns whether the bytes are a reserved word.
pub fn is_reserved(text: &[u8]) -> bool
    ensures { result ≡ spelling.is_reserved text.now }
{
    reserved_word(text).is_some()
}

/// Returns the kind of an identifier: a reserved word, or a name.
fn word_kind(text: &[u8]) -> TokenKind
    ensures { result ≡ spelling.word_kind text.now }
{
    reserved_word(text).unwrap_or(TokenKind::Name)
}

/// Returns the kind of the token of a lexeme. White and comments have none.
pub(crate) fn kind_of(kind: LexemeKind, text: &[u8]) -> Option<TokenKind>
    ensures { result ≡ spelling.kind_of kind text.now }
{
    match (kind, text) {
        (LexemeKind::Identifier, _) => Some(word_kind(text)),
        (LexemeKind::Braced, _) => Some(TokenKind::Name),
        (LexemeKind::Constant, [b]) => constant(*b),
        (LexemeKind::Symbol, [b]) => symbol(*b),
        (LexemeKind::Symbol, [b, c]) => long_symbol(*b, *c),
        _ => None,
    }
}

/// The number of kinds of tokens.
const KINDS: usize = 33;

/// Each kind of token.
pub const TOKEN_KINDS: [TokenKind; KINDS] = [
    TokenKind::Decl,
    TokenKind::Name,
    TokenKind::Begin,
    TokenKind::End,
    TokenKind::Skip,
    TokenKind::Goto,
    TokenKind::Return,
    TokenKind::If,
    TokenKind::Then,
    TokenKind::Else,
    TokenKind::Fi,
    TokenKind::While,
    TokenKind::Do,
    TokenKind::Od,
    TokenKind::Assert,
    TokenKind::Assume,
    TokenKind::Print,
    TokenKind::Zero,
    TokenKind::One,
    TokenKind::Question,
    TokenKind::Bang,
    TokenKind::Open,
    TokenKind::Close,
    TokenKind::Comma,
    TokenKind::Semicolon,
    TokenKind::Colon,
    TokenKind::Becomes,
    TokenKind::Bar,
    TokenKind::Caret,
    TokenKind::Ampersand,
    TokenKind::Equal,
    TokenKind::Differ,
    TokenKind::Implies,
];

/// Returns the word or the symbol of a kind; for names, one of them.
pub(crate) fn word_of(kind: TokenKind) -> &'static str
    ensures { result.now ≡ spelling kind }
{
    match kind {
        TokenKind::Name => "a",
        TokenKind::Zero => "0",
        TokenKind::One => "1",
        TokenKind::Semicolon => ";",
        TokenKind::Comma => ",",
        TokenKind::Open => "(",
        TokenKind::Close => ")",
        TokenKind::Colon => ":",
        TokenKind::Bar => "|",
        TokenKind::Ampersand => "&",
        TokenKind::Caret => "^",
        TokenKind::Equal => "=",
        TokenKind::Bang => "!",
        TokenKind::Question => "?",
        TokenKind::Becomes => ":=",
        TokenKind::Differ => "!=",
        TokenKind::Implies => "=>",
        TokenKind::Decl => "decl",
        TokenKind::Begin => "begin",
        TokenKind::End => "end",
        TokenKind::Skip => "skip",
        TokenKind::Goto => "goto",
        TokenKind::Return => "return",
        TokenKind::If => "if",
        TokenKind::Then => "then",
        TokenKind::Else => "else",
        TokenKind::Fi => "fi",
        TokenKind::While => "while",
        TokenKind::Do => "do",
        TokenKind::Od => "od",
        TokenKind::Assert => "assert",
        TokenKind::Print => "print",
        TokenKind::Assume => "assume",
    }
}

/// Returns a spelling of the kind: its word or its symbol, and for names one of them.
pub fn spelling_of(kind: TokenKind) -> &'static str
    ensures { IsReal (record { kind = kind; at = 0; text = result.now }) }
{
    word_of(kind)
}
