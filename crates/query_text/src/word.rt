// The words of a query: their kinds and their tables.
/// A reserved word or a sign.
#[derive(Clone, Copy, Debug, PartialEq, Eq)]
pub enum Sign {
    Stream,
    Let,
    Where,
    Select,
    Union,
    Delay,
    Hop,
    Tumble,
    Duration,
    Extend,
    Session,
    Clip,
    Join,
    Anti,
    Group,
    By,
    On,
    As,
    And,
    Or,
    Not,
    Div,
    Mod,
    True,
    False,
    IntKind,
    BoolKind,
    TextKind,
    Count,
    Sum,
    Min,
    Max,
    DecKind,
    Coalesce,
    Left,
    Else,
    Avg,
    Top,
    Per,
    Follow,
    Within,
    Differs,
    LessEqual,
    GreaterEqual,
    Open,
    Close,
    Comma,
    Semicolon,
    Bar,
    Colon,
    Equal,
    Less,
    Greater,
    Plus,
    Minus,
    Star,
}

/// A word of a query text.
#[derive(Clone, Copy, Debug, PartialEq, Eq)]
pub enum Word {
    /// A name of so many bytes.
    Name(usize),
    /// A number without a sign, at most 9223372036854775807.
    Number(u64),
    /// A number with a point: `1.50` has 150 units and 2 places. At most 9223372036854775807 and 18.
    Decimal { units: u64, places: u8 },
    /// A text between single quotes, of so many bytes with its quotes.
    Quoted(usize),
    /// A reserved word or a sign.
    Fixed(Sign),
    /// Bytes that form no word, a name or a number past its limit, or a text without its end.
    Bad,
}

/// A word, and the offset of its first byte in the text.
#[derive(Clone, Copy, Debug, PartialEq, Eq)]
pub struct Spot {
    pub at: usize,
    pub word: Word,
}

/// The reserved words: no name is spelled like one.
pub(crate) const RESERVED: [(&[u8], Sign); 41] = [
    (b"stream", Sign::Stream),
    (b"let", Sign::Let),
    (b"where", Sign::Where),
    (b"select", Sign::Select),
    (b"union", Sign::Union),
    (b"delay", Sign::Delay),
    (b"hop", Sign::Hop),
    (b"tumble", Sign::Tumble),
    (b"duration", Sign::Duration),
    (b"extend", Sign::Extend),
    (b"session", Sign::Session),
    (b"clip", Sign::Clip),
    (b"join", Sign::Join),
    (b"anti", Sign::Anti),
    (b"group", Sign::Group),
    (b"by", Sign::By),
    (b"on", Sign::On),
    (b"as", Sign::As),
    (b"and", Sign::And),
    (b"or", Sign::Or),
    (b"not", Sign::Not),
    (b"div", Sign::Div),
    (b"mod", Sign::Mod),
    (b"true", Sign::True),
    (b"false", Sign::False),
    (b"int", Sign::IntKind),
    (b"bool", Sign::BoolKind),
    (b"text", Sign::TextKind),
    (b"count", Sign::Count),
    (b"sum", Sign::Sum),
    (b"min", Sign::Min),
    (b"max", Sign::Max),
    (b"dec", Sign::DecKind),
    (b"coalesce", Sign::Coalesce),
    (b"left", Sign::Left),
    (b"else", Sign::Else),
    (b"avg", Sign::Avg),
    (b"top", Sign::Top),
    (b"per", Sign::Per),
    (b"follow", Sign::Follow),
    (b"within", Sign::Within),
];

/// The signs, the longer ones first.
pub(crate) const SIGNS: [(&[u8], Sign); 15] = [
    (b"<>", Sign::Differs),
    (b"<=", Sign::LessEqual),
    (b">=", Sign::GreaterEqual),
    (b"(", Sign::Open),
    (b")", Sign::Close),
    (b",", Sign::Comma),
    (b";", Sign::Semicolon),
    (b"|", Sign::Bar),
    (b":", Sign::Colon),
    (b"=", Sign::Equal),
    (b"<", Sign::Less),
    (b">", Sign::Greater),
    (b"+", Sign::Plus),
    (b"-", Sign::Minus),
    (b"*", Sign::Star),
];
