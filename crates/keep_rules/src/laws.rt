//! Laws of the nodes where a line or a header is more, or another value is in the place of one, each the contract of a
//! function that does nothing.
ghost use Rattle.keep_meaning.specs.DotsLess.{DotsTakeNodes};
ghost use Rattle.keep_meaning.specs.DotsMore.{DotsAddNodes, DotsAddValueNodes};
ghost use Rattle.keep_rules.specs.LinesNested as spec;
ghost use Rattle.keep_rules.specs.StatementsNested as headers;
ghost use Rattle.keep_rules.specs.StatementsKnown as known;
ghost use Rattle.keep_rules.specs.ValuesNested as values;

/// With one line more, a keyval of one key part with a new path and with nothing in its value, the nodes of a document
/// that obeys the definition rules are nested as its headers say, if those of the document without it are; and back, if
/// no node is below the line's.
pub fn line_nested()
    ensures nested { spec.LineIsNested }
    ensures left { spec.LineLeavesNested }
{}

/// With one line more, a keyval of several key parts, of which nothing is said at the first one's path or below it, the
/// nodes of a document that obeys the definition rules are nested as its headers say, if those of the document without
/// it are; and back.
pub fn keys_nested()
    ensures nested { spec.KeysAreNested }
    ensures left { spec.KeysLeaveNested }
{}

/// With one line more, a keyval whose key goes on from tables of dotted keys that are met before it to a key of which
/// nothing is said, nor below it, the nodes of a document that obeys the definition rules are nested as its headers
/// say, if those of the document without it are; and back.
pub fn dots_nested()
    ensures nested { spec.DotsAreNested }
    ensures left { spec.DotsLeaveNested }
{}

/// With one header more, as the last statement, the facts about the nodes of a document are those of the document
/// without it, with what the header says. The key parts are fewer than 2^64, as in a text that was read.
pub fn statement_known()
    ensures { known.StatementIsKnown }
{}

/// With one line more, as the last statement, a keyval of one key part with a new path and with nothing in its value,
/// the facts about the nodes of a document are those of the document without it, and after them those about the line's
/// node. The key parts are fewer than 2^64, as in a text that was read.
pub fn last_line_known()
    ensures { known.LastLineIsKnown }
{}

/// With one line more, whose key goes on from tables of dotted keys to a key with a new path, the facts about all nodes
/// are those of the document without it, with the nodes of the new keys, and below the last of these those in its
/// value, if there are any, and with one mention more of each of these tables; and so they are back, in a document that
/// obeys the definition rules.
pub fn dots_known()
    ensures added { DotsAddNodes }
    ensures valued { DotsAddValueNodes }
    ensures taken { DotsTakeNodes }
{}

/// With one header more, as the last statement, the nodes of a document that obeys the definition rules are nested as
/// its headers say, if those of the document without it are.
pub fn statement_nested()
    ensures { headers.StatementIsNested }
{}

/// With another value in the place of one that has a key, the nodes of a document that obeys the definition rules are
/// nested as its headers say, if those of the document with the old value are and that obeys the rules too.
pub fn value_nested()
    ensures { values.ValueIsNested }
{}
