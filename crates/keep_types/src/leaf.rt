/// Which language is read.
#[derive(Clone, Copy, Debug, PartialEq, Eq)]
pub enum Profile {
    /// TOML v1.0.0.
    Strict,
    /// TOML v1.0.0 with this project's own additions: newlines, comments and a last comma in inline tables, the
    /// escapes `\e` and `\xHH`, and times without seconds.
    Wide,
}

/// The kinds of leaves: the terminals of the grammar, by the names that TOML gives them.
#[derive(Clone, Copy, Debug, PartialEq, Eq)]
pub enum Leaf {
    /// The byte order mark EF BB BF, at the start of a document alone.
    Bom,
    /// `ws`: tabs and spaces.
    Ws,
    /// `newline`: LF or CR LF.
    Newline,
    /// `comment`: from `#` to the line's end.
    Comment,
    /// `unquoted-key`.
    BareKey,
    /// `basic-string`.
    Basic,
    /// `literal-string`.
    Literal,
    /// `ml-basic-string`.
    MlBasic,
    /// `ml-literal-string`.
    MlLiteral,
    /// `integer`, in 64 bits.
    Integer,
    /// `float`.
    Float,
    /// `boolean`.
    Boolean,
    /// `offset-date-time`.
    OffsetDateTime,
    /// `local-date-time`.
    LocalDateTime,
    /// `local-date`.
    LocalDate,
    /// `local-time`.
    LocalTime,
    /// `=` between a key and its value.
    Equals,
    /// `.` between the parts of a key.
    Dot,
    /// `,` between the items of an array and the keyvals of an inline table.
    Comma,
    /// `[` of a table's header.
    HeadOpen,
    /// `]` of a table's header.
    HeadClose,
    /// `[[` of an element's header.
    ElemOpen,
    /// `]]` of an element's header.
    ElemClose,
    /// `[` of an array.
    ArrayOpen,
    /// `]` of an array.
    ArrayClose,
    /// `{` of an inline table.
    InlineOpen,
    /// `}` of an inline table.
    InlineClose,
    /// The end of the document, with the empty text.
    End,
}
