//! Laws of what strings mean and of which nodes there are, each the contract of a function that does nothing.
ghost use Rattle.keep_meaning.specs.Laws as spec;
ghost use Rattle.keep_meaning.specs.DotsLess.{DotsHaveLast};
ghost use Rattle.keep_meaning.specs.DotsMore.{DotsAreFound};
ghost use Rattle.keep_meaning.specs.KeysMore.{KeysAddNodes, KeysAddValueNodes, KeysAreFound, KeysTakeNodes};
ghost use Rattle.keep_meaning.specs.OtherValues.{ValueGivesNodes};

/// A string or a key part means, by the pieces that it is made of, what is computed from its text byte by byte.
pub fn string_value_is_meaning()
    ensures { spec.StringValueIsMeaning }
{}

/// A text of so many bytes has at most one node more, and the text of no bytes has as many.
pub fn node_bound()
    ensures few { spec.NodesAreFew }
    ensures reached { spec.NodesReachBound }
{}

/// Of a document with one line more, a keyval with one key part and a value in which nothing is said, the facts about
/// all nodes are those of the document without it, and one node more: the numbers from the line's on grow by one.
pub fn line_more()
    ensures added { spec.LineAddsNode }
    ensures taken { spec.LineTakesNode }
{}

/// The facts about the nodes state where the node of such a line is among them: of a document that obeys the definition
/// rules, those from its place on, and no others, are first met after the line.
pub fn line_found()
    ensures { spec.LineIsFound }
{}

/// Of a document that has another value with a key at a path, and says all else as the old one, the facts about all
/// nodes are those of the old one, with the nodes in the new value in the place of those in the old value, which are
/// right after the node of the path: the numbers of values and of key parts after the value change, and so does that
/// node's kind.
pub fn other_value_nodes()
    ensures { ValueGivesNodes }
{}

/// Of a document with one line more, a keyval whose key has several parts, of which the first has a path of which the
/// document without it says nothing: the facts about all nodes are those of the document without it, with a table for
/// the first key, and below it the nodes of the others, and below the last of these those in its value, if there are
/// any; and so they are back. Where the table is among the nodes, the facts about the others state.
pub fn keys_more()
    ensures added { KeysAddNodes }
    ensures valued { KeysAddValueNodes }
    ensures taken { KeysTakeNodes }
    ensures found { KeysAreFound }
{}

/// Where the first new node of a line that passes tables of dotted keys is among the nodes, the facts about the others
/// state, in a document that obeys the definition rules.
pub fn dots_found()
    ensures { DotsAreFound }
{}

/// Of a document that obeys the definition rules, a table of dotted keys has the number of the last value that the
/// nodes one step below it have, of their own or of the last keyval that continues from them.
pub fn dots_last()
    ensures { DotsHaveLast }
{}
