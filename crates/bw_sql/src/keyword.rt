//! Reserved words.

ghost use Rattle.std.specs.Prelude.{◌≡◌, ◌==◌, map};
ghost use Rattle.std.specs.List.{list_all, zip};
ghost use Rattle.std.specs.Char.{to_ascii_uppercase};
ghost use Rattle.std.specs.Str.{bytes_eq};
ghost use Rattle.bw_sql.specs.Names.{keyword_of, spelled_among};

/// A reserved word. None of them is ever a name.
#[derive(Clone, Copy, Debug, PartialEq, Eq)]
pub enum Keyword {
    And,
    Between,
    Bigint,
    By,
    Count,
    Create,
    Delete,
    Drop,
    False,
    From,
    Group,
    In,
    Insert,
    Int,
    Integer,
    Into,
    Is,
    Max,
    Median,
    Min,
    Not,
    Null,
    Open,
    Or,
    Select,
    Set,
    Sum,
    Table,
    To,
    True,
    Unknown,
    Update,
    Using,
    Values,
    Where,
    With,
}

// Each reserved word with its spelling in upper case.
const SPELLINGS: [(&[u8], Keyword); 36] = [
    (b"AND", Keyword::And),
    (b"BETWEEN", Keyword::Between),
    (b"BIGINT", Keyword::Bigint),
    (b"BY", Keyword::By),
    (b"COUNT", Keyword::Count),
    (b"CREATE", Keyword::Create),
    (b"DELETE", Keyword::Delete),
    (b"DROP", Keyword::Drop),
    (b"FALSE", Keyword::False),
    (b"FROM", Keyword::From),
    (b"GROUP", Keyword::Group),
    (b"IN", Keyword::In),
    (b"INSERT", Keyword::Insert),
    (b"INT", Keyword::Int),
    (b"INTEGER", Keyword::Integer),
    (b"INTO", Keyword::Into),
    (b"IS", Keyword::Is),
    (b"MAX", Keyword::Max),
    (b"MEDIAN", Keyword::Median),
    (b"MIN", Keyword::Min),
    (b"NOT", Keyword::Not),
    (b"NULL", Keyword::Null),
    (b"OPEN", Keyword::Open),
    (b"OR", Keyword::Or),
    (b"SELECT", Keyword::Select),
    (b"SET", Keyword::Set),
    (b"SUM", Keyword::Sum),
    (b"TABLE", Keyword::Table),
    (b"TO", Keyword::To),
    (b"TRUE", Keyword::True),
    (b"UNKNOWN", Keyword::Unknown),
    (b"UPDATE", Keyword::Update),
    (b"USING", Keyword::Using),
    (b"VALUES", Keyword::Values),
    (b"WHERE", Keyword::Where),
    (b"WITH", Keyword::With),
];

// Whether the bytes of the word, in upper case, are those of the spelling.
fn agree(word: &[u8], spelling: &[u8]) -> bool
    ensures { result ≡ list_all (λ p. to_ascii_uppercase p.0 == p.1) (zip word.now spelling.now) }
{
    word.iter()
        .zip(spelling)
        .all(|(a, b)| a.to_ascii_uppercase() == *b)
}

/// Whether the word is this spelling, in any case.
pub(crate) fn spells(word: &[u8], spelling: &[u8]) -> bool
    ensures { result ≡ bytes_eq (map to_ascii_uppercase word.now) spelling.now }
{
    word.len() == spelling.len() && agree(word, spelling)
}

// The first of the entries whose spelling is the word, in any case.
fn found_among(entries: &[(&[u8], Keyword)], word: &[u8]) -> Option<Keyword>
    ensures { result ≡ spelled_among (map (λ entry. (entry.0.now, entry.1)) entries.now) (map to_ascii_uppercase word.now) }
{
    for (spelling, keyword) in entries {
        if spells(word, spelling) {
            return Some(*keyword);
        }
    }
    None
}

/// The reserved word that a word spells, in any case.
#[tactic(auto, unfolding(crate::specs::Names::keyword_of, crate::specs::Names::reserved_words))]
pub(crate) fn reserved_word(word: &[u8]) -> Option<Keyword>
    ensures { result ≡ keyword_of (map to_ascii_uppercase word.now) }
{
    found_among(&SPELLINGS, word)
}
