// Keywords and the names that may stand as identifiers.

ghost use Rattle.std.specs.Prelude.{◌≡◌, ◌||◌, ◌==◌};
ghost use Rattle.std.specs.List.{list_all, list_any};
ghost use Rattle.std.specs.Str.{bytes_eq, chars};
ghost use Rattle.unicode_ident.specs.Ident.{is_xid_continue, is_xid_start};
ghost use Rattle.dc_base.specs.Identifiers.{is_keyword, is_legal};

const KEYWORDS: [&str; 77] = [
    "abstract",
    "as",
    "base",
    "bool",
    "break",
    "byte",
    "case",
    "catch",
    "char",
    "checked",
    "class",
    "const",
    "continue",
    "decimal",
    "default",
    "delegate",
    "do",
    "double",
    "else",
    "enum",
    "event",
    "explicit",
    "extern",
    "false",
    "finally",
    "fixed",
    "float",
    "for",
    "foreach",
    "goto",
    "if",
    "implicit",
    "in",
    "int",
    "interface",
    "internal",
    "is",
    "lock",
    "long",
    "namespace",
    "new",
    "null",
    "object",
    "operator",
    "out",
    "override",
    "params",
    "private",
    "protected",
    "public",
    "readonly",
    "ref",
    "return",
    "sbyte",
    "sealed",
    "short",
    "sizeof",
    "stackalloc",
    "static",
    "string",
    "struct",
    "switch",
    "this",
    "throw",
    "true",
    "try",
    "typeof",
    "uint",
    "ulong",
    "unchecked",
    "unsafe",
    "ushort",
    "using",
    "virtual",
    "void",
    "volatile",
    "while",
];

/// Whether the word is a keyword of C# (ECMA-334, 6.4.4). Contextual keywords are none. Takes no memory.
pub fn keyword(word: &str) -> bool
    ensures { result ≡ is_keyword word.now }
{
    is_among(&KEYWORDS, word)
}

fn is_among(words: &[&str], word: &str) -> bool
    ensures { result ≡ list_any (λ w. bytes_eq w.now word.now) words.now }
{
    words.iter().any(|w| *w == word)
}

/// Whether the name may stand as an identifier (ECMA-334, 6.4.3), keyword or not. Takes no memory.
#[tactic(auto, using(std::proofs::lemmas::Str::chars_past_char))]
pub fn legal(name: &str) -> bool
    ensures { result ≡ is_legal (chars name.now) }
{
    let mut others = name.chars();
    match others.next() {
        Some(first) => begins(first) && continues(others.as_str()),
        None => false,
    }
}

fn begins(first: char) -> bool
    ensures { result ≡ (first == 95 || is_xid_start first) }
{
    first == '_' || unicode_ident::is_xid_start(first)
}

fn continues(others: &str) -> bool
    ensures { result ≡ list_all is_xid_continue (chars others.now) }
{
    others.chars().all(|c| unicode_ident::is_xid_continue(c))
}

#[cfg(test)]
mod tests {
    use super::*;

    #[test]
    fn tells_keywords_and_legal_names(rt: HostRuntime) {
        for (word, is_keyword, is_legal) in [
            ("abstract", true, true),
            ("default", true, true),
            ("while", true, true),
            ("While", false, true),
            ("async", false, true),
            ("yield", false, true),
            ("clas", false, true),
            ("_", false, true),
            ("x_1", false, true),
            ("caf\u{e9}", false, true),
            ("\u{4e00}", false, true),
            ("", false, false),
            ("1x", false, false),
            ("<>c", false, false),
            ("a b", false, false),
            ("\u{301}a", false, false),
            ("a\u{301}", false, true),
        ] {
            assert!(rt; keyword(word) == is_keyword);
            assert!(rt; legal(word) == is_legal);
        }
    }
}
